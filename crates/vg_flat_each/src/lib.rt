//! What holds of each instruction that a packed procedure becomes.
#![tactic(auto)]

pub mod laws;
