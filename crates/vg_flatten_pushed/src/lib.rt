//! Steps where the oldest values that wait are pushed, and each newer one has a home above them: what they become, as pieces of linear code.
#![tactic(auto)]

pub mod parts;
pub mod pushed;

pub use parts::{Parts, all_pushed, onto, part};
pub use pushed::{done, level, newest, raise};
