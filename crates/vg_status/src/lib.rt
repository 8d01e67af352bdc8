//! The answers of the top call: their numbers, and the line that says why nothing was built or run.
#![tactic(auto)]

mod lines;
mod status;

pub use lines::{FaultLine, fault_line};
pub use status::Status;
