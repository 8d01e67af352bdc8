//! That the open procedures of a run of linear code take no more of the stack than the calls cost that are active, where frames fit.
#![tactic(auto)]

pub mod laws;
