//! A well typed program is never Wrong: what each state of a run is known to be, and the law for steps, calls, initialisation and runs.
#![tactic(auto)]

pub mod soundness;
