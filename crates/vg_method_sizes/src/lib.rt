//! How large the methods of a text are, by their numbers, as definitions: parameters, locals and nodes.
#![tactic(auto)]

mod laws;

pub use laws::{costs_by_size, numbers_are_places};
