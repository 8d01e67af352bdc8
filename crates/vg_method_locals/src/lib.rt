//! The locals of each method of a source program, by its number, are those that its body declares.
#![tactic(auto)]

mod laws;

pub use laws::{locals_among_statements, locals_are_counted};
