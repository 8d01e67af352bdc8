//! The tree of a text comes in, and the costs of its methods go out: what an active call of each adds to the peak of a session.
#![tactic(auto)]

mod costs;
mod laws;
mod locals;

pub use costs::method_costs;
pub use laws::costs_are_small;
