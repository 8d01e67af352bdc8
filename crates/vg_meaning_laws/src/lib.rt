//! The laws of structured code: by which two meanings do the same, what holds of all answers, and what becomes of the clock, the trace
//! and the history.
#![tactic(auto)]

pub mod equivalence;
pub mod history;
pub mod more_clock;
pub mod safety;
pub mod spent_clock;
pub mod traces;
