//! A typed program does what it does with names in place of its numbers, clock for clock, with the same calls active behind each tick.
#![tactic(auto)]

pub mod renaming;
