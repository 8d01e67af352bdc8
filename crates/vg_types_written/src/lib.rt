//! That the tables of a text keep the fields and methods that it declares, with their owners and their types, and that their classes are chained.
#![tactic(auto)]

pub mod laws;
