//! That packed programs of typed procedures which weigh little lack linear code for want of memory alone.
#![tactic(auto)]

pub mod laws;
