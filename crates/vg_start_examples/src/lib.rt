//! A worked program whose layout is the one of its live set, as theorems.
#![tactic(auto)]

pub mod worked;
