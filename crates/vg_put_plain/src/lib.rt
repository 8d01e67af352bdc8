//! Plain instructions put: the code of each plain instruction of linear code, by its template, behind the code so far.
#![tactic(auto)]

pub mod accesses;
pub mod computing;
pub mod devices;
pub mod values;

pub use accesses::{put_loads_column, put_plus_base, put_stores_column};
pub use computing::{is_there, put_computes};
pub use devices::{first_of, put_reads_device, put_stops, put_writes_device};
pub use values::{put_copies, put_copies_whole, put_pushes_value};
