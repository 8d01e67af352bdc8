//! The law that packing makes of each method a procedure that weighs at most 28 times as much as the method's body has nodes in the tree.
#![tactic(auto)]

mod laws;

pub use laws::procedures_weigh_by_nodes;
