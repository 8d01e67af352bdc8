//! How much the code of a source program weighs: that of a method at most 28 times as much as its body has nodes.
#![tactic(auto)]

mod laws;

pub use laws::{extras_within_nodes, weights_within_nodes};
