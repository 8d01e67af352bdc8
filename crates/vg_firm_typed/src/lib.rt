//! Which packed procedures are typed: how many values wait at each place, and that what a step names is there.
#![tactic(auto)]
