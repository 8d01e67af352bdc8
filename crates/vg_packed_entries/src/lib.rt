//! That the procedures of entries have no parameters, and name no receiver.
#![tactic(auto)]

pub mod laws;
