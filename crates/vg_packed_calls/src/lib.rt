//! The law that the calls of typed code stand in the packed procedure, each once and in their order, and no other.
#![tactic(auto)]

mod laws;

pub use laws::packing_keeps_calls;
