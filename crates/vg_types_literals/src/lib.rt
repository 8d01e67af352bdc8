//! The string literals of a text: their nodes and their bytes, in order of the text.
#![tactic(auto)]

mod finding;
mod search;
mod spelled;
mod walk;

pub use walk::{Literals, literals_of};
