//! That the active calls of a packed program lie along the calls that its procedures name, from main or a handler on.
#![tactic(auto)]

pub mod laws;
