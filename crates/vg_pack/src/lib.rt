//! From a typed program, its heap, what is live, its numbers and its columns to the packed program.
#![tactic(auto)]

pub mod entrances;
pub mod packing;

pub use packing::pack;
