//! How many bytes of RAM and of flash the values of a text take, once its constructors left a heap: the fields that the text declares, and sums over what
//! is live of them and of the heap; as definitions over names.
#![tactic(auto)]

pub mod laws;
