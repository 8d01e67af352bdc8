//! The values with which the columns of a packed program begin: those that the heap has in the places that stand there.
#![tactic(auto)]

pub mod blank;
pub mod filling;
pub mod putting;

pub use filling::first_columns;
