//! That each opening of a call is noted behind a tick as well, in runs of packed programs.
#![tactic(auto)]

pub mod laws;
