//! The bytes of a source text come in, and its tree, its typed program and its initialised heap go out, or the fault that the text has, with its place.
#![tactic(auto)]

mod starting;

pub use starting::{Start, place_in, started};
