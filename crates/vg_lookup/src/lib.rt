//! The word for a member comes in, which is the name of the class or component that declares it, a point, and its own; and the method or field of a typed program that
//! it names goes out, or that it names none.
#![tactic(auto)]

mod finding;
mod naming;

pub use finding::find_member;
pub use naming::{class_or_component, text_of};
