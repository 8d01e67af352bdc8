//! From the bytes of a text to its one tree, or the exact place where it ceases to be a text of the language.
#![tactic(auto)]

mod builder;
pub mod derivation;
mod empty;
pub mod fault;
mod leaves;
mod maker;
pub mod reader;
mod sort;

pub use derivation::{Derivation, derive_text};
pub use fault::ReadFault;
pub use reader::read;
