//! From tokens to the steps that make their parse, or where they cease to be a text; the tables of the grammar and what they prove.
#![tactic(auto)]

pub mod alternative;
pub mod choice;
pub mod derivation;
pub mod laws;
pub mod marks;
pub mod number;
pub mod starts;

pub use derivation::{Step, Stop, derive};
