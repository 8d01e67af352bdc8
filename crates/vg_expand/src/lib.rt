//! From linear code with products, divisions and shifts to linear code that calls routines in their place.
#![tactic(auto)]

mod calls;
mod places;
pub mod procedure;
mod products;
pub mod runs;
mod too_long;

pub use procedure::expand;
pub use too_long::TooLong;
