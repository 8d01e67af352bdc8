//! What agreement says where the stack is large enough: the machine does what the session does.
#![tactic(auto)]

pub mod laws;
