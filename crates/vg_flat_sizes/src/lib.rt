//! How much linear code packed code becomes at most, as definitions.
#![tactic(auto)]
