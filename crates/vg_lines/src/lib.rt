//! Texts of lines: a text goes in, and its lines come out one by one.
#![tactic(auto)]

pub mod line;

pub use line::{Line, first_line};
