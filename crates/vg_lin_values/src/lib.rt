//! What operators and comparisons of linear code make of numbers of at most 32 bits.
#![tactic(auto)]

pub mod values;
