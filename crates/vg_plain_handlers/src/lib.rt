//! That the handlers of plain linear programs receive nothing.
#![tactic(auto)]

pub mod laws;
