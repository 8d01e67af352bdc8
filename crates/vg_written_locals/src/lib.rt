//! That parameters and locals have written types: what the grammar gives beside the rules.
#![tactic(auto)]

pub mod laws;
