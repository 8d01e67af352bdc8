//! Laws: a program of linear code whose procedures are packed ones, flattened, follows the packed program.
#![tactic(auto)]

pub mod following;
