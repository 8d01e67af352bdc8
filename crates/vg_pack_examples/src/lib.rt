//! A hierarchy of four levels, what is planned for it, and what its steps are packed to, as theorems.
#![tactic(auto)]

pub mod worked;
