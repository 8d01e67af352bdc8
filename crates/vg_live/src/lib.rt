//! What is live in a typed program, once its constructors left a heap: the eleven rules, the least set that they close, and the live
//! set as data, with a reason for each member.
#![tactic(auto)]

pub mod laws;
pub mod live_set;

pub use live_set::{LiveSet, Reason};
