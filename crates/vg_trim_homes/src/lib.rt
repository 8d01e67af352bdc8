//! Where the values of the older code stand in the newer code, and its instructions with their operands where these stand.
#![tactic(auto)]

pub mod homes;
pub mod mapping;

pub use homes::{Homes, NoRoom};
pub use mapping::{filler, mapped, mapped_call, mapped_test, stand_in};
