//! Packed programs as text: a procedure, the steps of its code, dispatches, and the bytes of tables.
#![tactic(auto)]

pub mod code;
pub mod operators;
pub mod procedure;
pub mod steps;

pub use code::put_code;
pub use procedure::{put_dispatch, put_procedure};
pub use steps::put_step;
