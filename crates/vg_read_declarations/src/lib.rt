//! What parts of declarations make of their kids.
#![tactic(auto)]

pub mod declarations;
