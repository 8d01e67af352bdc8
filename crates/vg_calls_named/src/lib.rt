//! The calls of a typed program are those of its text: ways from the methods of entries, what their methods cost, and cycles.
#![tactic(auto)]

pub mod laws;
