//! Operations put: the code of shifts, products of bytes, divisions, reads of tables in flash and dispatches, behind
//! the code so far.
#![tactic(auto)]

pub mod amounts;
pub mod choices;
pub mod divisions;
pub mod lookups;
pub mod products;
pub mod shifts;

pub use amounts::{put_shifts_left_by, put_shifts_right_by};
pub use divisions::put_divides_steps;
pub use lookups::{code_of, put_finds_procedure, put_loads_table};
pub use products::put_multiplies;
pub use shifts::{put_shifts_left, put_shifts_right};
