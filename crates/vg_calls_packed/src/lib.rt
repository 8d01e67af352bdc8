//! The calls of a packed program as a graph, and the law that they are those of its typed program: ways from the methods of entries,
//! what their methods cost, and cycles.
#![tactic(auto)]

pub mod laws;
