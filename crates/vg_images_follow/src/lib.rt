//! That an image does what its packed program does, from reset on.
#![tactic(auto)]

pub mod laws;
