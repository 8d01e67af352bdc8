// Where code stands.
use vg_core::{CoreType, Owner};

/// Whose members a body sees, the type of its result, and whether a loop is around.
#[derive(Clone, Copy, Debug, PartialEq, Eq)]
pub struct BodyKind {
    /// None where no member is seen.
    pub owner: Option<Owner>,
    pub result: CoreType,
    pub in_loop: bool,
}
