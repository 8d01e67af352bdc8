//! What holds of the history all along the runs of packed programs, piece by piece: lemmas for laws of active calls.
#![tactic(auto)]
