//! Fewer cases of a dispatch that have the same procedures for the numbers of objects.
#![tactic(auto)]

mod covering;
mod dispatches;
mod joining;
mod placing;
#[cfg(test)]
mod tests;

pub use covering::covers;
pub use dispatches::{fewer, fewer_of_all};
