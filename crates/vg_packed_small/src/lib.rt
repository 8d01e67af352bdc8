//! That the numbers of a packed program have two bytes, and that its entries are procedures without parameters.
#![tactic(auto)]

pub mod laws;
