// The turn in which procedures stand, and their code numbers.
ghost use Rattle.std.specs.Prelude.{◌≡◌, ◌<◌, ◌++◌, ◌∷◌, [], length, IfOk, Some, slice_get};
ghost use Rattle.vg_put_programs.specs.Programs.{in_turn, turn_of, entry_in, entries_upto, codes_upto, places_at};

use crate::placed::Placed;
use std::alloc::Global;
use vg_base::{NoMemory, Row};
use vg_lin::LinProc;

// The procedure that stands at a place in turn, by its number.
fn in_turn(start: usize, count: usize, k: usize) -> usize
    requires start { start < count }
    requires low { k < count }
    ensures turn { result ≡ in_turn start count k }
    ensures low { result < count }
{
    let behind = count - start;
    if k < behind { start + k } else { k - behind }
}

/// The procedure that stands at a place in turn.
pub fn procedure_at(procedures: &[LinProc], start: u16, k: usize) -> &LinProc
    requires start { start < length procedures.now }
    requires low { k < length procedures.now }
    ensures { slice_get procedures.now (in_turn start (length procedures.now) k) ≡ Some result.now }
{
    &procedures[in_turn(usize::from(start), procedures.len(), k)]
}

/// Where the instructions begin of the procedure at a place in turn.
pub fn places_at(placed: &[Placed], k: usize) -> &[u32]
    ensures { result.now ≡ places_at placed.now k }
{
    match placed.get(k) {
        Some(one) => one.places.as_slice(),
        None => &[],
    }
}

// The place in turn of a procedure.
fn turn_of(start: usize, count: usize, procedure: usize) -> usize
    requires start { start < count }
    requires low { procedure < count }
    ensures turn { result ≡ turn_of start count procedure }
{
    if procedure < start {
        count - start + procedure
    } else {
        procedure - start
    }
}

// The entry of the procedure at a place in turn.
fn entry_in(placed: &[Placed], k: usize) -> u32
    ensures { result ≡ entry_in placed.now k }
{
    match placed.get(k) {
        Some(one) => one.entry,
        None => 0,
    }
}

/// The entries of so many procedures, by their numbers: word addresses.
pub fn entries_of(
    alloc: Global,
    placed: &[Placed],
    start: u16,
    count: usize,
) -> Result<Row<u32>, NoMemory>
    requires { start < count }
    ensures { IfOk result (λ entries. entries ≡ entries_upto placed.now start count count) }
{
    let mut entries = Row::new(alloc);
    for procedure in 0..count {
        entries.push(entry_in(placed, turn_of(usize::from(start), count, procedure)))?;
    }
    Ok(entries)
}

/// The code numbers of so many procedures, by their numbers: the low two bytes of the word addresses of their entries.
pub fn codes_of(
    alloc: Global,
    placed: &[Placed],
    start: u16,
    count: usize,
) -> Result<Row<u16>, NoMemory>
    requires { start < count }
    ensures { IfOk result (λ codes. codes ≡ codes_upto placed.now start count count) }
{
    let mut codes = Row::new(alloc);
    for procedure in 0..count {
        let entry = entry_in(placed, turn_of(usize::from(start), count, procedure));
        let code = (entry % 65536) as u16;
        codes.push(code)?;
    }
    Ok(codes)
}
