//! The law that packing makes no more of a source program's code than it weighs.
#![tactic(auto)]

mod laws;

pub use laws::packing_keeps_weight;
