//! A guess at what a procedure of linear code becomes when it is trimmed, with what is known at each of its places. No proof stands on it: who uses it looks
//! at the whole of it.
#![tactic(auto)]

pub mod deciding;
pub mod planning;

pub use planning::{Effort, plan, plan_of};
pub use vg_trim_flow::Given;
pub use vg_trim_prices::Plan;
