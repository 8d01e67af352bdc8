//! The law that in the tree of a text each arm of an `if` has a block.
#![tactic(auto)]

mod laws;

pub use laws::arms_have_blocks;
