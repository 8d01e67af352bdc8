//! The law that packing makes no code larger.
#![tactic(auto)]

mod laws;

pub use laws::packing_keeps_size;
