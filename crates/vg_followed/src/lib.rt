//! Followed: what it means that the code of a program of linear code stands in flash, and that the machine then does what the program does, step by
//! step, for whole runs and from reset on.
#![tactic(auto)]

pub mod amounts;
pub mod bytes;
pub mod dispatches;
pub mod divisions;
pub mod entering;
pub mod laws;
pub mod leading;
pub mod resetting;
pub mod runs;
pub mod steps;
pub mod tables;
pub mod taking;
