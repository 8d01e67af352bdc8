//! The values of the parameters and locals of legal texts have bits, and of their bit strings none has more than 32.
#![tactic(auto)]

pub mod laws;
