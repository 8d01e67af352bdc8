//! The rules on statements: the code that they stand for, or the first breach in them.
#![tactic(auto)]

mod arms;
mod form;
mod nested;

pub use nested::{statement, statements};
