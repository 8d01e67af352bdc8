// Arms of an `if`.
use vg_core::{Code, CoreType, Prefix};

/// An arm of an `if`, or code that is none, without pairs, each with the operator that its condition or the code is, where it is one and no more.
#[derive(Drop)]
pub enum Item {
    Plain(Option<(Prefix, CoreType)>, Code),
    /// The condition and the block.
    Arm(Option<(Prefix, CoreType)>, Box<Code>, Box<Code>),
}
