//! The classes above each class, by their numbers.
#![tactic(auto)]

mod laws;
mod walk;

pub use laws::chains_close;
pub use walk::chain;
