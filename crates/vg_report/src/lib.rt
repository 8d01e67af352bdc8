//! Texts for the user: why a member is live, as the chain of its kept reasons.
#![tactic(auto)]

pub mod members;
pub mod why;

pub use why::why_text;
