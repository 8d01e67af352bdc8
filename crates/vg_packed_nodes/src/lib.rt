//! The law that packing makes of each method a procedure at most as large as the method's body has nodes in the tree.
#![tactic(auto)]

mod laws;

pub use laws::procedures_within_nodes;
