//! The frames of methods: how many bytes of the stack each procedure takes by its layout, and whether costs of methods pay for them.
#![tactic(auto)]

pub mod codes;
pub mod counting;
pub mod frames;
pub mod paying;
pub mod sizes;
pub mod waiting;

pub use frames::{Frames, method_frames};
pub use paying::are_paid;
