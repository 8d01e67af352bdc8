//! The places of the newer code: what is left out, and which returns and stops become jumps to others that do the same.
#![tactic(auto)]

pub mod placing;
pub mod returning;

pub use placing::{Placed, close_up, in_place};
pub use returning::{Shape, shared};
