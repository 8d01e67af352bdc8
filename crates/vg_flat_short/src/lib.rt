//! That typed procedures which weigh little are refused for want of memory alone, and with how few temporaries and pushed values they are flattened.
#![tactic(auto)]

pub mod laws;
