//! What the values of locals are at most at each place of a procedure of linear code, by passes forward until nothing changes.
#![tactic(auto)]

pub mod ranges;

pub use ranges::{Ranges, Spot, computed_most, decided, find_ranges, result_most, tells_less};
