//! That there is code for each instruction of a procedure, by the layout that says where its locals lie; and whether it receives nothing, as a handler must.
#![tactic(auto)]

pub mod laws;
pub mod receiving;

pub use receiving::receives_nothing;
