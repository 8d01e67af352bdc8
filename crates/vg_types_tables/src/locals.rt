// Parameters and locals.
use std::alloc::Global;
use vg_base::{Name, Row};
use vg_core::CoreType;

/// A parameter or local in scope.
#[derive(Clone, Copy, Debug, PartialEq, Eq)]
pub struct InScope {
    pub name: Name,
    pub type_: CoreType,
    /// Its number in the body.
    pub number: u8,
}

/// What is in scope, the newest last, and the types of all parameters and locals of the body so far, by their numbers.
#[derive(Drop)]
pub struct Locals {
    /// What makes room for them.
    pub alloc: Global,
    pub in_scope: Row<InScope>,
    pub declared: Row<CoreType>,
}
