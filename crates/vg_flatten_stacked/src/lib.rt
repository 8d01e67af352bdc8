//! Structured code as pieces of linear code where the oldest values that wait are pushed, and each newer one has a home above them.
#![tactic(auto)]

pub mod above;
pub mod calm;
pub mod stack;

pub use stack::stacked;
