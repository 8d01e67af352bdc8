//! Flow put: the code of tests and branches, jumps, calls and returns, and of the entry of a procedure and its exit, behind the code so far.
#![tactic(auto)]

pub mod branching;
pub mod calling;
pub mod linking;
pub mod ways;

pub use branching::{put_branch, put_jump, put_tests, told_by};
pub use calling::{put_aims, put_call, put_drops};
pub use linking::{put_epilogue, put_prologue, put_returns_value};
pub use ways::{Hop, Turn, Way};
