//! The numbers of the live cells: the objects of a class with all below it have numbers that lie side by side, from 1 in their
//! hierarchy, and the arrays of one type are numbered from 1 in order of making.
//!
//! What comes out are the numbers by counting. Two passes over the cells do: one counts the objects of each class, one hands out.
#![tactic(auto)]

pub mod counters;
pub mod laws;
pub mod numbers;
pub mod spans;
pub mod standing;

pub use counters::is_kept;
pub use numbers::{Numbers, Span, number};
