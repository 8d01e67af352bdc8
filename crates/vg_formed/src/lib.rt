//! The law that the grammar spells statements where statements stand, and expressions where expressions do.
#![tactic(auto)]

mod laws;

pub use laws::texts_are_formed;
