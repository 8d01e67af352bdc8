//! The bytes of all flash tables of a packed program, in their order: those with which the columns in RAM begin, and where arrays stand.
#![tactic(auto)]

pub mod bytes;

pub use bytes::tables;
