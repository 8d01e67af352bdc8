//! That the heap which initialisation leaves keeps within its room.
#![tactic(auto)]

pub mod laws;
