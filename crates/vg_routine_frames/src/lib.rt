//! What the routines, the procedure with which a run begins, and the finders take of the stack.
#![tactic(auto)]

pub mod laws;
