//! How many words of flash packed code takes at most, flattened with a home for each value and with its arithmetic expanded.
#![tactic(auto)]

pub mod laws;
