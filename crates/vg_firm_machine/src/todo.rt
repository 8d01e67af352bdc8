// What is left to be done.
use vg_firm::Code;

/// What of a code is left to be done.
#[derive(Clone, Copy)]
pub enum Part {
    /// All of it.
    Whole,
    /// Of a row, or of the arms of an `if`, those from this place on.
    From(usize),
    /// Of an arm, what stands behind its condition; of arms, behind the condition of the one at this place.
    Chosen(usize),
    /// Of a loop, what stands behind its condition.
    Tested,
    /// Of a loop, what stands behind its body.
    Turned,
}

/// A code, and what of it is left to be done.
#[derive(Clone, Copy)]
pub struct Todo<'a> {
    pub code: &'a Code,
    pub part: Part,
}
