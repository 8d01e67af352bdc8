//! The files of a command: their names come in, a shelf is asked for them in turn, and each comes out whole or the first that is missing is named.
#![tactic(auto)]

pub mod fetch;

pub use fetch::{NoFile, fetch_file, fetch_two};
