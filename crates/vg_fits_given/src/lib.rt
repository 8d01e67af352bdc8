//! From a text that fits to what packing is given: a well typed program with its heap, what of it is live and where that stands, all in range.
#![tactic(auto)]

pub mod laws;

pub use vg_fits::Fitted;
