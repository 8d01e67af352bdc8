//! The initialisation of a well typed program to a heap, and its sessions: main and then the interrupts one by one, with the
//! lines of the trace on a sink.
#![tactic(auto)]

pub mod initialisation;
pub mod session;

pub use initialisation::{InitFault, init};
pub use session::{Session, SessionEnd};
