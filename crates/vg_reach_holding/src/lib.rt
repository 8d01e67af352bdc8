//! What steps of live methods name and read, and what live fields, objects and arrays hold: each is marked as live.
#![tactic(auto)]

pub mod holding;
pub mod naming;

pub use holding::{hold_component, hold_fields, hold_items, hold_objects};
pub use naming::{Named, name};
