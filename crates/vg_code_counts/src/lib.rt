//! Structured code that takes and leaves its values in order, whatever its steps are, and what holds of each step of code.
#![tactic(auto)]

pub mod laws;
