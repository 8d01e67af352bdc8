//! A law of packed programs: what waits below is left alone.
#![tactic(auto)]

pub mod framing;
