//! From a legal text to the ranges that packing needs of its typed program, and what else has to be known of the program.
#![tactic(auto)]

pub mod laws;
