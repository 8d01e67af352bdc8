//! Laws of plans: that a plan which was made is one of its typed program, that it names all that is live and no more, and that the packed program of it has
//! its rows.
#![tactic(auto)]

pub mod bound;
pub mod laws;
pub mod packed_rows;
pub mod whole_plans;
