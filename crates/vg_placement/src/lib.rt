//! Columns: what each holds, where it stands, how many bytes its values take, and the tables in flash behind them.
#![tactic(auto)]

pub mod column;

pub use column::{Column, Held};
