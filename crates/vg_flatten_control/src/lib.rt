//! Structured code as pieces of linear code: choices, loops and the ends of bodies.
#![tactic(auto)]

pub mod flat;
