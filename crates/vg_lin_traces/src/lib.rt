//! That the trace of a run of linear code only grows, and that a run which has ended stays as it is.
#![tactic(auto)]

pub mod laws;
