//! That a legal text names registers and interrupts of the chip alone.
#![tactic(auto)]

pub mod laws;
