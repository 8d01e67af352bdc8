//! What is live in a program with names, once its constructors left a heap: the eleven rules, the least set that they close, where a live
//! method makes something, and why a member is live, in lines.
#![tactic(auto)]

pub mod laws;
