//! What procedures are open in a run of linear code, what waits in them, and that their calls were noted.
#![tactic(auto)]

pub mod laws;
