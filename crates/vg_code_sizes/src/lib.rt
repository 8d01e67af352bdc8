//! How large structured code is, by the weights of its steps, as definitions.
#![tactic(auto)]
