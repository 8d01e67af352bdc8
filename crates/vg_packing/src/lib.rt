//! From the typed program to the packed one: the pass on steps, what a layout of numbers, columns and procedures must satisfy, and the law
//! that then both do the same, clock for clock and call for call.
#![tactic(auto)]

pub mod laws;
