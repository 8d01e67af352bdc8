//! What follows from one live member and those that were looked at before it. Calls on objects go by classes: for each class the first
//! object that was looked at stands for all.
#![tactic(auto)]

pub mod looking;
pub mod meeting;
pub mod seen;

pub use looking::visit;
pub use seen::{Seen, Site, Work};
