//! Which locals the instructions name that a packed procedure becomes.
#![tactic(auto)]

pub mod laws;
