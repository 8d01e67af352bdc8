//! The packed program: structured code over numbers of objects and columns of values, and what it does.
#![tactic(auto)]

pub mod code;
pub mod procedure;
pub mod step;

pub use code::Code;
pub use procedure::Procedure;
pub use step::{ArrayPlace, Elements, Home, Operator, Order, Prefix, Step};
