// The code of procedures.
ghost use Rattle.std.specs.Prelude.{ℕ, ◌≡◌, ◌+◌, [], ◌∷◌, ◌++◌, OnOk, IfOk, Some, length, reverse, slice_get};
ghost use Rattle.avr_isa.specs.Standing.{widths};
ghost use Rattle.vg_lin.specs.declared.instr.Instr.{Instr as InstrValue};
ghost use Rattle.vg_lin.specs.Sound.{behind};
ghost use Rattle.vg_templates.specs.Linkage.{prologue};
ghost use Rattle.vg_alloc.specs.Locations.{layout};
ghost use Rattle.vg_put_operations.specs.Coded.{code_from};
ghost use Rattle.vg_select.specs.Leadings.{leading};
ghost use Rattle.vg_select.specs.Selected.{selected, with_codes};
ghost use Rattle.vg_select.specs.Within.{IsWithin};
ghost use Rattle.vg_put_procedures.specs.Emitted.{leading_in, behind_at, code_of, body_code, place_of, places_upto};

use crate::waiting::go_behind;
use crate::words::behind_code;
use avr_instr::Instr as Avr;
use std::alloc::Global;
use vg_alloc::Locations;
use vg_base::{NoMemory, Row};
use vg_codes::Case;
use vg_lin::Instr;
use vg_put_flow::{Hop, Turn, Way, put_prologue};
use vg_select::{Leading, put_selected};

// Where the instruction at a place leads; nowhere behind the last one.
fn leading_at(leadings: &[Leading], pc: usize) -> Leading
    ensures { leading result ≡ leading_in leadings.now pc }
{
    match leadings.get(pc) {
        Some(leading) => *leading,
        None => Leading {
            jump: Hop::Far(0),
            branch: Turn::Past(Hop::Far(0)),
            call: Way::Far(0),
            idle: 0,
        },
    }
}

// The code of one instruction; what waits becomes what waits behind it.
fn put_one(
    alloc: Global,
    code: &mut Row<Avr>,
    waits: &mut Vec<u8>,
    locations: &Locations,
    codes: &[u16],
    dispatches: &[Row<Case>],
    to: Leading,
    instr: &Instr,
) -> Result<(), NoMemory>
    requires { IsWithin (layout locations.now) instr.now }
    ensures code { OnOk result (code.new ≡ code.old
        ++ selected (layout locations.now) (with_codes (code_from codes.now) dispatches.now) (reverse waits.old.items) (leading to) instr.now) }
    ensures waits { OnOk result (reverse waits.new.items ≡ behind instr.now (reverse waits.old.items)) }
{
    put_selected(
        alloc,
        code,
        locations,
        codes,
        dispatches,
        waits.as_slice(),
        &to,
        instr,
    )?;
    go_behind(waits, instr)
}

// That of the instruction at a place, where there is one.
fn put_at(
    alloc: Global,
    code: &mut Row<Avr>,
    waits: &mut Vec<u8>,
    locations: &Locations,
    codes: &[u16],
    dispatches: &[Row<Case>],
    leadings: &[Leading],
    instrs: &[Instr],
    pc: usize,
) -> Result<(), NoMemory>
    requires { (pc : ℕ) (i : InstrValue) → slice_get instrs.now pc ≡ Some i → IsWithin (layout locations.now) i }
    ensures code { OnOk result (code.new ≡ code.old
        ++ code_of (layout locations.now) (with_codes (code_from codes.now) dispatches.now) (reverse waits.old.items) (leading_in leadings.now pc)
        (slice_get instrs.now pc)) }
    ensures waits { OnOk result (reverse waits.new.items ≡ behind_at (slice_get instrs.now pc) (reverse waits.old.items)) }
{
    match instrs.get(pc) {
        Some(instr) => put_one(
            alloc,
            code,
            waits,
            locations,
            codes,
            dispatches,
            leading_at(leadings, pc),
            instr,
        ),
        None => Ok(()),
    }
}

// It goes behind the code so far, and begins at this word address.
fn put_next(
    alloc: Global,
    code: &mut Row<Avr>,
    waits: &mut Vec<u8>,
    locations: &Locations,
    codes: &[u16],
    dispatches: &[Row<Case>],
    leadings: &[Leading],
    instrs: &[Instr],
    pc: usize,
    at: u32,
) -> Result<u32, NoMemory>
    requires { (pc : ℕ) (i : InstrValue) → slice_get instrs.now pc ≡ Some i → IsWithin (layout locations.now) i }
    ensures code { OnOk result (code.new ≡ code.old
        ++ code_of (layout locations.now) (with_codes (code_from codes.now) dispatches.now) (reverse waits.old.items) (leading_in leadings.now pc)
        (slice_get instrs.now pc)) }
    ensures waits { OnOk result (reverse waits.new.items ≡ behind_at (slice_get instrs.now pc) (reverse waits.old.items)) }
    ensures next { IfOk result (λ next. next ≡ at
        + widths (code_of (layout locations.now) (with_codes (code_from codes.now) dispatches.now) (reverse waits.old.items) (leading_in leadings.now pc)
        (slice_get instrs.now pc))) }
{
    let mut piece = Row::new(alloc);
    put_at(
        alloc, &mut piece, waits, locations, codes, dispatches, leadings, instrs, pc,
    )?;
    let next = behind_code(at, piece.as_slice())?;
    append(code, piece.as_slice())?;
    Ok(next)
}

fn append(code: &mut Row<Avr>, piece: &[Avr]) -> Result<(), NoMemory>
    ensures { OnOk result (code.new ≡ code.old ++ piece.now) }
{
    for instr in piece {
        code.push(*instr)?;
    }
    Ok(())
}

/// The code of the instructions of a procedure goes behind the code so far, of which the first instruction begins at `start`, a word address; the word
/// addresses at which the instructions begin go behind others. It answers the word address behind all of them.
pub fn put_body(
    alloc: Global,
    code: &mut Row<Avr>,
    places: &mut Row<u32>,
    locations: &Locations,
    codes: &[u16],
    dispatches: &[Row<Case>],
    leadings: &[Leading],
    instrs: &[Instr],
    start: u32,
) -> Result<u32, NoMemory>
    requires { (pc : ℕ) (i : InstrValue) → slice_get instrs.now pc ≡ Some i → IsWithin (layout locations.now) i }
    ensures code { OnOk result (code.new ≡ code.old
        ++ body_code (layout locations.now) (with_codes (code_from codes.now) dispatches.now) (leading_in leadings.now) instrs.now) }
    ensures places { OnOk result (places.new ≡ places.old
        ++ places_upto (layout locations.now) (with_codes (code_from codes.now) dispatches.now) (leading_in leadings.now) instrs.now start (length instrs.now)) }
    ensures end { IfOk result (λ end. end
        ≡ place_of (layout locations.now) (with_codes (code_from codes.now) dispatches.now) (leading_in leadings.now) instrs.now start (length instrs.now)) }
{
    let mut waits = Vec::new(alloc);
    let mut at = start;
    for pc in 0..instrs.len() {
        places.push(at)?;
        at = put_next(
            alloc, code, &mut waits, locations, codes, dispatches, leadings, instrs, pc, at,
        )?;
    }
    Ok(at)
}

/// The same of a whole procedure, whose entry stands at `entry`, a word address: it saves registers and takes its slots before its instructions.
pub fn put_procedure(
    alloc: Global,
    code: &mut Row<Avr>,
    places: &mut Row<u32>,
    locations: &Locations,
    codes: &[u16],
    dispatches: &[Row<Case>],
    leadings: &[Leading],
    instrs: &[Instr],
    entry: u32,
) -> Result<u32, NoMemory>
    requires { (pc : ℕ) (i : InstrValue) → slice_get instrs.now pc ≡ Some i → IsWithin (layout locations.now) i }
    ensures code { OnOk result (code.new ≡ code.old ++ (prologue (layout locations.now)
        ++ body_code (layout locations.now) (with_codes (code_from codes.now) dispatches.now) (leading_in leadings.now) instrs.now)) }
    ensures places { OnOk result (places.new ≡ places.old
        ++ places_upto (layout locations.now) (with_codes (code_from codes.now) dispatches.now) (leading_in leadings.now) instrs.now
        (entry + widths (prologue (layout locations.now))) (length instrs.now)) }
    ensures end { IfOk result (λ end. end
        ≡ place_of (layout locations.now) (with_codes (code_from codes.now) dispatches.now) (leading_in leadings.now) instrs.now
        (entry + widths (prologue (layout locations.now))) (length instrs.now)) }
{
    let mut piece = Row::new(alloc);
    put_prologue(&mut piece, locations)?;
    let start = behind_code(entry, piece.as_slice())?;
    append(code, piece.as_slice())?;
    put_body(
        alloc, code, places, locations, codes, dispatches, leadings, instrs, start,
    )
}
