//! The constants that stand in legal code are in their ranges, and its bit strings have at most 32 bits.
#![tactic(auto)]

pub mod laws;
