//! The numbers of objects and arrays: each is one more than those before it, so that the objects of a class with all below it have numbers
//! that lie side by side.
#![tactic(auto)]

pub mod laws;
