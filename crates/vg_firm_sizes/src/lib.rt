//! How large packed code is, by what costs instructions later, as definitions.
#![tactic(auto)]
