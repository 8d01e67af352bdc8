//! Worked programs of packed and of linear code, whose runs are theorems by computation, and one whose linear code stands.
#![tactic(auto)]

pub mod example;
pub mod sample;
pub mod smallest;
#[cfg(test)]
mod tests;
