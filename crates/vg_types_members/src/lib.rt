//! The fields and methods that each class and each component of a text declares itself.
#![tactic(auto)]

mod home;
mod member;
mod selectors;

pub use home::{add_members, class_params};
pub use member::{Home, Making, Own};
pub use selectors::Selectors;
