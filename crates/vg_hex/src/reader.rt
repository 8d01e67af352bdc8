// The image of a text.
ghost use Rattle.std.specs.Prelude.{◌≡◌, ◌<◌, ◌≤◌, ◌+◌, ◌^◌, ℕ, List, [], ◌∷◌, ◌++◌, length, Option, None, Some, IfOk, OnOk};
ghost use Rattle.vg_base.specs.Limits.{image_text_limit};
ghost use Rattle.vg_lines.specs.Lines.{lines};
ghost use Rattle.vg_hex.specs.HexRecords.{read_line};
ghost use Rattle.vg_hex.specs.HexImage.{Named, Bad, HexImage, behind_end, fault_in};
ghost use Rattle.vg_hex.specs.Walk.{Leaves, record_fault};

use crate::fault::{HexFault, HexRefusal};
use crate::hex_record::{Base, HexRecord, read_line};
use crate::slots::Slots;
use avr_isa::Image;
use std::alloc::Global;
use vg_lines::first_line;

/// The image that a text of at most 1,048,576 bytes spells (Intel HEX).
///
/// The fault is the first in the order of the lines.
pub fn read(alloc: Global, text: &[u8]) -> Result<Image, HexRefusal>
    requires { length text.now ≤ image_text_limit }
    ensures image { IfOk result (λ image. HexImage text.now image) }
    ensures fault { (f : HexFault) → result ≡ Err (HexRefusal.Fault f) → fault_in text.now ≡ Some f }
{
    let mut slots = Slots::new(alloc);
    let mut base = Base::Unset;
    let mut number = 1u32;
    let mut rest = text;
    while !rest.is_empty() {
        let line = first_line(rest);
        match put_line(alloc, &mut slots, base, number, line.bytes)? {
            Step::Goes(next) => base = next,
            Step::Ends => {
                only_blanks(line.behind, number + 1)?;
                return Ok(slots.image(alloc)?);
            }
        }
        number += 1;
        rest = line.behind;
    }
    Err(HexRefusal::Fault(HexFault::NoEnd))
}

/// What a line leads to.
#[derive(Clone, Copy)]
pub enum Step {
    /// The next line, with this base.
    Goes(Base),
    /// The end of the text.
    Ends,
}

// Puts what the line of this number names.
fn put_line(
    alloc: Global,
    slots: &mut Slots,
    base: Base,
    number: u32,
    line: &[u8],
) -> Result<Step, HexRefusal>
    ensures leaves { IfOk result (λ step. Leaves base (read_line line.now) slots.old slots.new step) }
    ensures fault { (f : HexFault) → result ≡ Err (HexRefusal.Fault f) → record_fault number slots.old base (read_line line.now) ≡ Some f }
{
    match read_line(alloc, line)? {
        HexRecord::Blank => Ok(Step::Goes(base)),
        HexRecord::Data(at, bytes) => {
            slots.put_data(base, at, bytes.as_slice())?;
            Ok(Step::Goes(base))
        }
        HexRecord::Base(next) => Ok(Step::Goes(next)),
        HexRecord::End => Ok(Step::Ends),
        HexRecord::Passed => Ok(Step::Goes(base)),
        HexRecord::NoSum => Err(HexRefusal::Fault(HexFault::Sum(number))),
        HexRecord::NoForm => Err(HexRefusal::Fault(HexFault::Form(number))),
    }
}

// Reads empty lines to the end of the text, the first of them with this number.
fn only_blanks(text: &[u8], first: u32) -> Result<(), HexRefusal>
    requires { first + length text.now < 2 ^ 32 }
    ensures blank { OnOk result (behind_end first (lines text.now) ≡ []) }
    ensures fault { (f : HexFault) → result ≡ Err (HexRefusal.Fault f) → behind_end first (lines text.now) ≡ Bad f ∷ [] }
{
    let mut number = first;
    let mut rest = text;
    while !rest.is_empty() {
        let line = first_line(rest);
        if !line.bytes.is_empty() {
            return Err(HexRefusal::Fault(HexFault::Form(number)));
        }
        number += 1;
        rest = line.behind;
    }
    Ok(())
}
