//! The first live method that makes something is the same under numbers and under names.
#![tactic(auto)]

pub mod laws;
