//! That a stack which holds what the active calls of a packed program may cost is never left.
#![tactic(auto)]

pub mod laws;
