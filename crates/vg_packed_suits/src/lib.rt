//! Laws of packed programs: that their columns and tables stand in linear code as they say, and that all their procedures are typed.
#![tactic(auto)]

pub mod laws;
