//! The names of classes, components, devices and registers, and the names of the classes above classes.
#![tactic(auto)]

mod heads;
mod registers;

pub use heads::{Heads, declared_heads};
