//! What the operators, the prefixes and the casts among numbers make of values of the typed program, and the values that places hold at
//! first. The run over the typed program stands on these equations.
#![tactic(auto)]

pub mod binary;
pub mod bits;
pub mod cast;
pub mod default;
pub mod failure;
pub mod prefix;

pub use binary::operate;
pub use cast::{as_it_is, to_bits, to_char, to_int};
pub use default::default_of;
pub use failure::Failure;
pub use prefix::apply;
