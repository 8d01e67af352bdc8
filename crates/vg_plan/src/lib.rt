//! The plan of a packed program: from what is live, numbered and placed to what stands for fields, elements, methods and calls, with the
//! dispatches that calls go by.
#![tactic(auto)]

pub mod own;
pub mod planning;

pub use planning::{Planned, plan};
