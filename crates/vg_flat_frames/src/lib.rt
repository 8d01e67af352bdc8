//! How much of the stack flattened procedures take, and what their code calls.
#![tactic(auto)]

pub mod laws;
