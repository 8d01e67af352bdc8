//! That procedures receive nothing whose packed code names neither a parameter nor a receiver.
#![tactic(auto)]

pub mod laws;
