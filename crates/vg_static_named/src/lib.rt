//! The bytes of RAM and of flash that the columns of a typed program take are those that its text and its heap need, said over names.
#![tactic(auto)]

pub mod laws;
