//! Finders: procedures of linear code that look up, for all that ask, what a dispatch has for the number of an object. As definitions, and the laws that
//! a program does the same by them.
#![tactic(auto)]

pub mod each;
pub mod laws;
