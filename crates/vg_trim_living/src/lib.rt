//! Which locals are needed at each place of a procedure of linear code, and which are not 0 there.
#![tactic(auto)]

pub mod filling;
pub mod living;

pub use filling::{filled, is_filled_test, is_stop};
pub use living::{Life, find_life, find_live, is_behind, is_crossing_behind};
