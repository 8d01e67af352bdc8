//! How many words a guess at a trimmed procedure takes, about, by where its locals lie: in registers that outlive calls, in others, or in the frame.
#![tactic(auto)]

pub mod guess;
pub mod pricing;
pub mod seating;
pub mod words;

pub use guess::Plan;
pub use pricing::{Prices, prices_of};
pub use seating::by_registers;
