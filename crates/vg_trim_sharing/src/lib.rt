//! What the newer code has once for many: results of computations that are done again, and locals that several of the older code share.
#![tactic(auto)]

pub mod uniting;
pub mod working;

pub use uniting::{Unions, first_of, united};
pub use working::{Seen, Works, spared_ways, useful_works, works_of};
