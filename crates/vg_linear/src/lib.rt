//! The linear program of a packed one: where its columns stand and how its procedures are called, its procedures flattened with the start behind them,
//! all of them trimmed, where the program is not to be plain, and expanded, the routines that they call behind these, and finders, where they are to look up
//! by these; and the dispatches, each with as few cases as can be.
#![tactic(auto)]

pub mod expanding;
pub mod flats;
pub mod laws;
pub mod laying;
pub mod passing;
pub mod routines;
pub mod whole;
pub mod widths;

pub use whole::{Linear, make_linear, make_plain, make_shared};
