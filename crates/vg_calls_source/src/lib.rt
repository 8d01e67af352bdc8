//! Which methods of a text may call one another, once its constructors left a heap: ways from the methods of entries, what their methods cost, and cycles.
#![tactic(auto)]

pub mod laws;
