//! How the literals of texts are spelled, and that types stand where the rules on types look for them: what the grammar gives beside the rules.
#![tactic(auto)]

pub mod laws;
