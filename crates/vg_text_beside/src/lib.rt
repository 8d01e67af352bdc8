//! From the typed program of a text to all that packing needs of it: what its types, its spelling and its limits give together.
#![tactic(auto)]

pub mod laws;
