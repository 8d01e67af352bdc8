//! That the costs of a text's methods pay for what is packed of it, where no procedure is trimmed.
#![tactic(auto)]

pub mod laws;
