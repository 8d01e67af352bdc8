//! Worked code: what is put for the instructions of a small procedure, beside words that were worked out by hand from the instruction set.
#![tactic(auto)]

pub mod sample;
#[cfg(test)]
mod tests;
