//! "The same, clock for clock" in the worlds of a run whose device reads are bytes, and its laws.
#![tactic(auto)]

pub mod laws;
