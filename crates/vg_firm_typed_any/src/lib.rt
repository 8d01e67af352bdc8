//! Which packed procedures are typed, however many values wait.
#![tactic(auto)]
