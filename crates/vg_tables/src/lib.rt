//! The bytes of the flash tables: those with which columns begin, low byte first, and where arrays stand.
#![tactic(auto)]

pub mod bytes;
pub mod datum;
pub mod entry;
pub mod laws;

pub use bytes::{put_array, put_entry};
pub use datum::Datum;
pub use entry::{Entry, entry_of};
