//! Worked programs as typed programs over numbers, with what they do, under numbers and under names, as theorems by computation.
#![tactic(auto)]

pub mod examples;
