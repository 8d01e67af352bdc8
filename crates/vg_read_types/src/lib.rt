//! What parts of types make of their kids: types by name and by reserved word, levels of arrays, function types and rows of types.
#![tactic(auto)]

pub mod types;
