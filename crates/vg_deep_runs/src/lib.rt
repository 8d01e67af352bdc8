//! Calls that are as deep as they may be, from statements that are as high, as a test of the host's stack.
#![tactic(auto)]

#[cfg(test)]
mod tests;
