//! What the limits of texts and the rules on their types say of the tables and the steps of typed programs.
#![tactic(auto)]

pub mod laws;
