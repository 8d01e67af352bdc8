//! A guess at a trimmed procedure with its locals in the order that takes the fewest words, about.
#![tactic(auto)]

pub mod ordering;

pub use ordering::{Priced, ordered};
