//! The command `sim` behind its files: a HEX text and a script go in, and the lines of the machine's trace and of its ending go to a sink.
#![tactic(auto)]

pub mod simulate;

pub use simulate::{Simulated, put_run, simulate_text};
