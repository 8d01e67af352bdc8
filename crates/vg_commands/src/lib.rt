//! The commands `run`, `sim` and `why`: files are fetched, an answer is made, and its lines are put; with the answers of the top call that tell of each.
#![tactic(auto)]

mod answers;
mod session;
mod sim;
mod why;

pub use answers::{status_of_ending, status_of_refusal, status_without_file};
pub use session::run_session;
pub use sim::run_sim;
pub use why::run_why;
