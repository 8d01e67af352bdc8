//! What all classes and components of a text declare, and what can be called.
#![tactic(auto)]

mod homes;
mod pass;

pub use homes::Homes;
pub use pass::declared_homes;
