//! The meaning of the typed program, run: structured code, calls and loops over a run. The commands that run constructors and sessions
//! stand on its contracts, which are the meaning itself. While a run goes on, the lines of its events go to a sink.
#![tactic(auto)]

pub mod bodies;
pub mod execution;
pub mod playing;

pub use execution::{call, exec};
pub use playing::Playing;
