//! The columns of a program's live fields and arrays, at their addresses, and the two refusals of what does not fit.
//!
//! The layout is plain: a reference takes two bytes, and every column of values stands in RAM.
#![tactic(auto)]

pub mod arrays;
pub mod elements;
pub mod fields;
pub mod placing;
pub mod sums;

pub use placing::{Columns, PlaceFault, place};
