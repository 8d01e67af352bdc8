//! That images of packed programs agree with the texts that these are made of, keep memory, and never reach below a stack that is enough.
#![tactic(auto)]

pub mod agreeing;
pub mod laws;
