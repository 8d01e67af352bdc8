//! The packed program as data, what a plan and a packed program owe to the program that was packed, and the laws behind them: no two values of
//! columns stand in one place, columns hold the heap, what is live has procedures, numbers and columns, a packed program does what its
//! program does, and its scalars are in their ranges.
#![tactic(auto)]

pub mod case_laws;
pub mod column_laws;
pub mod live_laws;
pub mod program;
pub mod range_laws;
pub mod run_laws;
pub mod start_laws;
pub mod step_laws;

pub use program::{Entrance, FirmProgram};
