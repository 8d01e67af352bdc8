//! Procedures put: the code of all instructions of a procedure, with its entry before them, behind the code so far, and where each of them begins.
#![tactic(auto)]

pub mod bodies;
pub mod waiting;
pub mod words;

pub use bodies::{put_body, put_procedure};
