//! The command `run` behind its files: a source text and a script go in, and the lines of the session's trace and of its ending go to a sink.
#![tactic(auto)]

mod playing;

pub use playing::{Played, RunEnd, play};
