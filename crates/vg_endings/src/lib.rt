//! How a run of a legal program ends: each session has an ending, and without a limit on active calls it is never too deep.
#![tactic(auto)]

pub mod endings;
