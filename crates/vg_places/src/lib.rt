//! The places of the nodes of a tree: from the number of a node to the line and column where it begins.
#![tactic(auto)]

mod parts;
mod places;

pub use places::place_of;
