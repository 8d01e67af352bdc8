//! What is live in worked texts, as theorems; and that the numbers of methods are in the order of the text.
#![tactic(auto)]

pub mod delegate;
pub mod dispatch;
pub mod numbers;
