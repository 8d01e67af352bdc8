//! What each step of a packed procedure becomes, as a piece of linear code.
#![tactic(auto)]

pub mod calls;
pub mod delegates;
pub mod objects;
pub mod steps;

pub use steps::stepped;
