// The code of all procedures.
ghost use Rattle.std.specs.Prelude.{ℕ, ◌≡◌, ◌+◌, ◌<◌, ◌++◌, length, IfOk, OnOk, Some, slice_get};
ghost use Rattle.avr_isa.specs.Standing.{widths};
ghost use Rattle.vg_lin.specs.declared.instr.Instr.{Instr as InstrValue};
ghost use Rattle.vg_templates.specs.Framed.{framed};
ghost use Rattle.vg_select.specs.Within.{IsWithin};
ghost use Rattle.vg_put_programs.specs.Programs.{emission, sites, piece_of, pieces_upto, placed_of, placed_upto, AreWithin};

use crate::leads::leadings;
use crate::placed::{Laid, Placed};
use crate::turns::{places_at, procedure_at};
use avr_instr::Instr;
use std::alloc::Global;
use vg_alloc::frames;
use vg_base::{NoMemory, Row};
use vg_codes::Case;
use vg_lin::LinProc;
use vg_put_procedures::put_procedure;

// One procedure, whose entry stands at a word address.
fn put_one(
    alloc: Global,
    code: &mut Row<Instr>,
    procedure: &LinProc,
    dispatches: &[Row<Case>],
    entries: &[u32],
    guessed: &[u32],
    codes: &[u16],
    places: &[u32],
    idle: u16,
    entry: u32,
) -> Result<Placed, NoMemory>
    requires { (pc : ℕ) (i : InstrValue) → slice_get procedure.now.code pc ≡ Some i → IsWithin (framed procedure.now) i }
    ensures code { OnOk result (code.new ≡ code.old ++ piece_of (sites entries.now guessed.now codes.now places.now idle) dispatches.now (Some procedure.now)) }
    ensures placed { IfOk result (λ placed. placed ≡ placed_of entry (sites entries.now guessed.now codes.now places.now idle) dispatches.now
        (Some procedure.now)) }
{
    let instrs = procedure.code();
    let locations = frames(alloc, procedure)?;
    let leadings = leadings(
        alloc, &locations, entries, guessed, codes, places, idle, instrs,
    )?;
    let mut begins = Row::new(alloc);
    let end = put_procedure(
        alloc,
        code,
        &mut begins,
        &locations,
        codes,
        dispatches,
        leadings.as_slice(),
        instrs,
        entry,
    )?;
    Ok(Placed {
        entry,
        places: begins,
        end,
    })
}

/// The code of all procedures goes behind the code so far, that of the start procedure at `first`, a word address. Its instructions lead to where they would
/// if the procedures stood where `known` says, had these code numbers, and the program waited for interrupts in a piece at `idle`. Jumps, branches and calls
/// have the form for the distances that they would have if the procedures stood where `guess` says, and had these entries, or the far one where it is empty.
pub fn put_programs(
    alloc: Global,
    code: &mut Row<Instr>,
    procedures: &[LinProc],
    start: u16,
    dispatches: &[Row<Case>],
    guess: &[Placed],
    entries: &[u32],
    known: &[Placed],
    codes: &[u16],
    idle: u16,
    first: u32,
) -> Result<Laid, NoMemory>
    requires start { start < length procedures.now }
    requires within { AreWithin procedures.now }
    ensures code { OnOk result (code.new ≡ code.old
        ++ pieces_upto (emission procedures.now start dispatches.now guess.now entries.now known.now codes.now idle) (length procedures.now)) }
    ensures placed { IfOk result (λ laid. laid.placed
        ≡ placed_upto (emission procedures.now start dispatches.now guess.now entries.now known.now codes.now idle) first (length procedures.now)) }
    ensures end { IfOk result (λ laid. laid.end
        ≡ first + widths (pieces_upto (emission procedures.now start dispatches.now guess.now entries.now known.now codes.now idle) (length procedures.now))) }
{
    let mut placed = Row::new(alloc);
    let mut end = first;
    for k in 0..procedures.len() {
        let guessed = places_at(guess, k);
        let places = places_at(known, k);
        let one = put_one(
            alloc,
            code,
            procedure_at(procedures, start, k),
            dispatches,
            entries,
            guessed,
            codes,
            places,
            idle,
            end,
        )?;
        end = one.end;
        placed.push(one)?;
    }
    Ok(Laid { placed, end })
}
