//! What is live in worked programs over numbers, as theorems.
#![tactic(auto)]

pub mod assigned;
