//! That flattened and expanded code is fit for the machine.
#![tactic(auto)]

pub mod laws;
