//! What parts of statements make of their kids.
#![tactic(auto)]

pub mod statements;
