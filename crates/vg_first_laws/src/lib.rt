//! Laws of programs of constants: each is a text of the language, and its meaning is that of its writes.
#![tactic(auto)]

pub mod judged;
pub mod meaning;
pub mod parsing;
