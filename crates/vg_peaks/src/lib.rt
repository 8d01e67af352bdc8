//! That the stack of an image reaches below its floor only where the active calls of the program cost more than the stack.
#![tactic(auto)]

pub mod laws;
