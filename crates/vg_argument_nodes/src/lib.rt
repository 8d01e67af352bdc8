//! The law that in the tree of a text each argument of a call is a node.
#![tactic(auto)]

mod laws;

pub use laws::arguments_are_nodes;
