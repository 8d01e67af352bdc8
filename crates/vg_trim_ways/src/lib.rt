//! The ways through a procedure of linear code: which branches are led past others that are decided, and which always lead to one place.
#![tactic(auto)]

pub mod leading;
pub mod ways;

pub use leading::{Led, lead, may_lead, unled};
pub use ways::{plain_ways, ways_of};
