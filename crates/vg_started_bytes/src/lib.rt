//! That the bytes of the columns of a packed program are those with which its linear code starts, and that what starts there stands.
#![tactic(auto)]

pub mod laws;
pub mod standing;
