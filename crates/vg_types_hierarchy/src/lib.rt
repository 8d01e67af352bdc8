//! Classes with all that they inherit.
#![tactic(auto)]

mod classes;
mod inherited;
mod slots;

pub use classes::{Parts, above_numbers, classes_of};
pub use slots::with_slots;
