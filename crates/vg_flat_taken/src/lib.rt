//! That typed procedures are flattened, though more values wait than there are temporaries.
#![tactic(auto)]

pub mod laws;
