//! Laws of texts: each text of the language has one tree, and each text that is none has one fault at one place.
#![tactic(auto)]

pub mod laws;

pub use laws::{one_answer, one_tree};
