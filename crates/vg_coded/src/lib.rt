//! Values as numbers: the one number that stands for each value of a typed program, the bytes that hold it, and the operators that
//! stand for operators.
#![tactic(auto)]

pub mod operators;
pub mod widths;
