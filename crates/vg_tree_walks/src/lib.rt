//! The tree of a text: how it is walked, each node before its children; and what is looked up in it.
#![tactic(auto)]

pub mod children;
mod class;
pub mod laws;
pub mod tree;
mod walk;

pub use laws::counts_agree;
pub use tree::Tree;
