//! How many words of flash the code of each instruction of linear code takes at most.
#![tactic(auto)]

pub mod laws;
