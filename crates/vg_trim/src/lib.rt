//! Procedures of linear code with less to do: a guess is made and looked at place by place; where it does not stand, the procedure stays as it is.
#![tactic(auto)]

pub mod flow;
pub mod looking;
pub mod ranges;
pub mod trimmed;

pub use looking::{looks_right, trims};
pub use trimmed::{keep_all, trim, trim_all};
