//! The tables of a text whose declarations keep the rules by themselves: all that the rules on bodies look up.
#![tactic(auto)]

mod heads;
mod made;
mod members;
mod parts;
mod pass;

pub use pass::declare;
