//! The bodies of all that a text declares: of the methods, of the constructions of the classes, of the initialisations of the components; or
//! the first breach in what is written in members.
#![tactic(auto)]

mod constructors;
mod fields;
mod homes;
mod members;
mod methods;
mod owners;
mod pass;
mod walked;

pub use pass::{Bodies, bodies_of};
