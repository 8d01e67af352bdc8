//! That the procedures of a packed text are at most as large as the bodies of their methods have nodes.
#![tactic(auto)]

pub mod laws;
