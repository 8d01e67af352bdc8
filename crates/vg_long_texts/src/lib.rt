//! That a text of which no image is built is long.
#![tactic(auto)]

pub mod laws;
