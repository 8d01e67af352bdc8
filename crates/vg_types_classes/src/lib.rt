//! The classes of a text by name, and the rule on classes above one another.
#![tactic(auto)]

mod class;
mod extends;
mod fault;
mod rows;

pub use class::{FoundClass, class_of};
pub use extends::classes;
pub use fault::broken;
pub use rows::{declared_nodes, row_of};
