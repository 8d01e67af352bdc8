//! Programs of the source language as trees, with what they do as theorems by computation: each module of `specs` is one.
#![tactic(auto)]

pub mod firmware;
