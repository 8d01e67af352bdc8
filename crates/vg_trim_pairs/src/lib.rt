//! Whether an instruction of the newer code may stand for one of the older code, or one of the older code be left out, by what is known at each place.
#![tactic(auto)]

pub mod both;
pub mod bounds;
pub mod branches;
pub mod calls;
pub mod homes;
pub mod lasting;
pub mod learning;
pub mod places;
pub mod plains;
pub mod turns;
pub mod walking;
pub mod worked;

pub use both::Both;
pub use lasting::begins_with;
pub use places::stands_at;
