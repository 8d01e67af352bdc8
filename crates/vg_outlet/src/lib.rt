//! An outlet: the events of a run come in while it goes on, and their lines go to a sink, many in one put.
#![tactic(auto)]

mod lines;
pub mod outlet;

pub use outlet::Outlet;
