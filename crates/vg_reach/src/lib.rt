//! The live members of a typed program and the heap that its constructors left: the least set that the eleven rules close, each member
//! with a reason; or the first live method that would make something.
#![tactic(auto)]

pub mod closing;
pub mod making;
pub mod reach;

pub use making::Allocates;
pub use reach::{live, why};
