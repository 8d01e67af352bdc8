//! Finders in place of look-ups in procedures of linear code, and dispatches with fewer cases.
#![tactic(auto)]

mod choosing;
pub mod finding;
mod numbering;
mod replacing;

pub use finding::{Found, Lookups, find_by};
