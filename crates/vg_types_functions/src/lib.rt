//! Calls of delegates: the types of the parameters of a function type, and what a call of such a type stands for.
#![tactic(auto)]

pub mod call;
pub mod params;

pub use params::params_of;
