//! Chains put: the instructions that move, compute with and compare numbers of several bytes, behind the code so far.
#![tactic(auto)]

pub mod combining;
pub mod moving;
pub mod reaching;
pub mod saving;
pub mod summing;

pub use combining::{put_ands, put_compares, put_eors, put_ors};
pub use moving::{put_clears, put_known, put_known_number, put_loads, put_moves, put_stores};
pub use reaching::{Reached, put_reach};
pub use saving::{put_drops_slots, put_frame_pointer, put_pops, put_pushes, put_sp_is_y};
pub use summing::{put_adds, put_subtracts, put_takes_known};
