//! The bytes of a source text come in, and what it starts with goes out, with what of it is live; or the fault that the text has: one that it has before, or that
//! a live method would make something.
#![tactic(auto)]

mod finding;

pub use finding::{Alive, find_live};
