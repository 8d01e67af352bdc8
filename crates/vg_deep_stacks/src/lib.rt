//! That a run whose stack is too deep is one whose open procedures take too many bytes.
#![tactic(auto)]

pub mod laws;
