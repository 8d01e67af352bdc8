//! What the bytes of a source text can be refused for, as definitions: too many of something, the first breach of the rules, what goes wrong while
//! constructors run, and what live methods would make; and the law that a text has at most one of these.
#![tactic(auto)]

mod clock;
mod fault;
mod laws;

pub use clock::INIT_STEPS;
pub use fault::Fault;
pub use laws::{faults_exclude, fit_faults_exclude, live_faults_exclude, room_faults_exclude};
