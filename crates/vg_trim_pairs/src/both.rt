// Both codes.
use vg_lin::Instr;
use vg_trimming::Facts;

/// What both codes are, with what is known at places of the older one, and where the newer code is when the older one is at a place.
#[derive(Clone, Copy)]
pub struct Both<'a> {
    /// The widths of the locals.
    pub old: &'a [u8],
    pub new: &'a [u8],
    pub older: &'a [Instr],
    pub newer: &'a [Instr],
    pub facts: &'a [Facts],
    pub places: &'a [u16],
}
