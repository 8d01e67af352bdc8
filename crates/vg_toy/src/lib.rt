//! A language of four steps, which shows the shared vocabulary at work: its meaning, a run by computation, a pass from calls by
//! name to calls by place that keeps what a program does, and a law of the calls that are open.
#![tactic(auto)]

pub mod openings;
pub mod places;
pub mod program;
#[cfg(test)]
mod tests;

pub use places::rename;
pub use program::{Body, Program, Step};
