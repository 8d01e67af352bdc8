//! The locals of packed procedures take one to four bytes, where the locals of their methods have the types of a legal text.
#![tactic(auto)]

pub mod laws;
