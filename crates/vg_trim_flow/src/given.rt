// What guesses are made of.
use vg_lin::Instr;

/// What of a procedure a guess is made of: how many parameters it has, the widths of its locals, and its code.
#[derive(Clone, Copy)]
pub struct Given<'a> {
    pub params: u8,
    pub widths: &'a [u8],
    pub code: &'a [Instr],
}
