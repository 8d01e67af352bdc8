//! The procedures of a packed program: each live method becomes one, in order of the text.
#![tactic(auto)]

pub mod locals;
pub mod packed;

pub use packed::procedures;
