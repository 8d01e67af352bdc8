//! Flattening: structured code over waiting values to three-address code over locals.
#![tactic(auto)]

pub mod procedure;

pub use procedure::{flatten, start};
pub use vg_flatten_shapes::{Fault, Layout, Place};
