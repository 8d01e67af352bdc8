//! The steps that stand in the body of a method, as a list.
#![tactic(auto)]

pub mod walk;

pub use walk::steps_of;
