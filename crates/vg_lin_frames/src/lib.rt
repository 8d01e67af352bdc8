//! A law of linear code: what waits below is left alone.
#![tactic(auto)]

pub mod framing;
