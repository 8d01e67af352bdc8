//! That a run whose stack is too deep is one whose active calls cost more than the stack, in images of programs whose frames fit.
#![tactic(auto)]

pub mod laws;
