//! When a procedure of linear code is another one with less to do: its values stand elsewhere, what is not needed is left out, and a branch leads past others
//! that are decided. A program with such procedures does what it did. It is said by facts at each place, which are looked at place by place.
#![tactic(auto)]

pub mod facts;
pub mod laws;

pub use facts::{Bound, Change, Facts, Gain, Learned, Met, Sets, Twin, Worked};
