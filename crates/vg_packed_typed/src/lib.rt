//! The law that the packed form of code which takes and leaves its values in order is typed.
#![tactic(auto)]

pub mod laws;
