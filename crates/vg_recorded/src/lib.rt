//! How much is kept of the history of calls changes nothing of what a typed program does; and how its initialisation and its runs end.
#![tactic(auto)]

pub mod recording;
