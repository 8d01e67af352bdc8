//! Why a member is live, and which members a program declares, is the same under numbers and under names.
#![tactic(auto)]

pub mod laws;
