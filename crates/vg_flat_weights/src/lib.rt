//! The law that packed code becomes at most as many instructions of linear code as it weighs.
#![tactic(auto)]

mod laws;

pub use laws::flat_code_is_short;
