//! What is live in a typed program is what is live in the program with names in place of its numbers, by the same rules.
#![tactic(auto)]

pub mod laws;
