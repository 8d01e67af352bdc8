//! The rules on the entries of the program, and the entries where these are kept.
#![tactic(auto)]

mod entered;
mod program;

pub use program::{ProgramEntries, entries};
