//! The generator of programs: a number comes in, and the text of a program with as many objects goes out, or the lines that tell of one.
#![tactic(auto)]

pub mod generator;
pub mod pieces;
pub mod summary;

pub use generator::generate;
pub use summary::summary_text;
