//! That costs pay for the procedures of a linear program in which none is trimmed.
#![tactic(auto)]

pub mod laws;
