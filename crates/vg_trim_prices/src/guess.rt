// A guess at a trimmed procedure.
use vg_base::Row;
use vg_lin::Instr;
use vg_trimming::Facts;

/// A guess at a trimmed procedure: the widths of its locals in bytes, its code, what is known at each place of the older code, and for each of these places
/// the one of the newer code.
#[derive(Drop)]
pub struct Plan {
    pub widths: Row<u8>,
    pub code: Row<Instr>,
    pub facts: Row<Facts>,
    pub places: Row<u16>,
}
