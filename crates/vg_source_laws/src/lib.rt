//! Laws of what a program of the source language means: of casts, of the clock, and of histories.
#![tactic(auto)]

pub mod casts;
pub mod clock;
pub mod recorders;
