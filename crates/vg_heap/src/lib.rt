//! Stores to the heap of a typed program: a store changes the value at one place, and what lies in no cell.
#![tactic(auto)]

pub mod stores;
