//! That the procedures of a packed program are methods: none idles, and they call one another alone.
#![tactic(auto)]

pub mod laws;
