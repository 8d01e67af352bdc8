//! What the operators of a packed procedure become, as pieces of linear code.
#![tactic(auto)]

pub mod divisions;
pub mod operators;
pub mod put;
pub mod shifts;

pub use operators::{applied, is_zero, operated, test_of};
pub use put::{put_home, put_into, temp};
