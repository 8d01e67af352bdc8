//! The rules on what each class, component and device declares for itself.
#![tactic(auto)]

mod members;
mod params;
mod pass;
mod registers;
mod types;

pub use pass::signatures;
