//! The numbers, columns and tables of a worked program, as theorems: each value was worked by hand.
#![tactic(auto)]

pub mod hierarchy;
