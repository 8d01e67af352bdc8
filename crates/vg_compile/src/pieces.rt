// The pieces of the code of an image.
use crate::compiled::Image;
use std::alloc::Global;
use vg_base::{NoMemory, Row};
use vg_core::{Program, Tables};
use vg_layout::{CodePiece, Whose};
use vg_lin::{Instr, LinProc, Plain};
use vg_live::LiveSet;
use vg_pack_calls::{asked_by, live_steps};
use vg_pack_code::Asked;
use vg_shape::lookup;

/// The pieces of the code, by ascending addresses: that of the start, the routines that are called, the finders of dispatches, the methods, and the place where
/// the program waits. What stands in the place of a routine that is not called is part of the piece before it.
pub fn pieces_of(
    alloc: Global,
    program: &Program,
    live: &LiveSet,
    image: &Image,
) -> Result<Row<CodePiece>, NoMemory> {
    let mut pieces = Row::new(alloc);
    pieces.push(CodePiece {
        whose: Whose::Start,
        word: first_word(image.unlinked.tables.len()),
    })?;
    let procedures = image.unlinked.procedures.as_slice();
    let start = usize::from(image.unlinked.start);
    let codes = image.linked.codes.as_slice();
    put_routines(&mut pieces, procedures, start, codes)?;
    if procedures.len() > start.saturating_add(FIRST_FINDER) {
        let asked = asked_in(alloc, program, live)?;
        let tables = &program.tables;
        put_finders(
            &mut pieces,
            tables,
            asked.as_slice(),
            procedures,
            start,
            codes,
        )?;
    }
    put_methods(&mut pieces, procedures, start, codes)?;
    pieces.push(CodePiece {
        whose: Whose::Idle,
        word: image.linked.idle,
    })?;
    Ok(pieces)
}

// The place behind the start of the first finder: there are four routines before it.
const FIRST_FINDER: usize = 5;

// The word address behind tables of so many bytes, which stand behind 35 vectors of two words each.
fn first_word(table_bytes: usize) -> u16 {
    let words = (table_bytes.min(60_000) + 1) / 2;
    70 + words as u16
}

// What live methods ask for: of each dispatch, by its number, the class and the selector.
fn asked_in(alloc: Global, program: &Program, live: &LiveSet) -> Result<Row<Asked>, NoMemory> {
    let methods = live.methods.as_slice();
    if methods.len() >= 65536 {
        return Ok(Row::new(alloc));
    }
    let steps = live_steps(alloc, program, methods)?;
    asked_by(alloc, steps.as_slice())
}

// The routines that are called. They stand behind the start; what stands in the place of one that is not called has one instruction.
fn put_routines(
    pieces: &mut Row<CodePiece>,
    procedures: &[LinProc],
    start: usize,
    codes: &[u16],
) -> Result<(), NoMemory> {
    let mut which = 0u8;
    for (place, procedure) in procedures.iter().enumerate() {
        if place > start && which < 4 {
            if procedure.code().len() > 1 {
                put_at(pieces, Whose::Routine(which), place, codes)?;
            }
            which += 1;
        }
    }
    Ok(())
}

// The finders, which stand behind the routines. One of which is not known what it is for is part of the piece before it.
fn put_finders(
    pieces: &mut Row<CodePiece>,
    tables: &Tables,
    asked: &[Asked],
    procedures: &[LinProc],
    start: usize,
    codes: &[u16],
) -> Result<(), NoMemory> {
    for (place, procedure) in procedures.iter().enumerate() {
        if place >= start.saturating_add(FIRST_FINDER) {
            match sought_by(tables, asked, procedure) {
                Some(whose) => put_at(pieces, whose, place, codes)?,
                None => {}
            }
        }
    }
    Ok(())
}

// What the finder with this code is for: it looks up in a dispatch at once.
fn sought_by(tables: &Tables, asked: &[Asked], finder: &LinProc) -> Option<Whose> {
    match finder.code() {
        [Instr::Plain(Plain::Find(dispatch, _, _)), ..] => match asked.get(*dispatch as usize) {
            Some(found) => sought(tables, *found),
            None => None,
        },
        _ => None,
    }
}

// What is asked for on a class: a method of that name.
fn sought(tables: &Tables, asked: Asked) -> Option<Whose> {
    match lookup::dispatch(tables, asked.class, asked.selector) {
        Some(method) => Some(Whose::Dispatch {
            class: asked.class,
            method,
        }),
        None => None,
    }
}

// The methods, which stand behind the finders.
fn put_methods(
    pieces: &mut Row<CodePiece>,
    procedures: &[LinProc],
    start: usize,
    codes: &[u16],
) -> Result<(), NoMemory> {
    for (place, procedure) in procedures.iter().enumerate() {
        if place < start {
            match procedure.method() {
                Some(method) => put_at(pieces, Whose::Method(method), place, codes)?,
                None => {}
            }
        }
    }
    Ok(())
}

// The piece of the procedure at a place.
fn put_at(
    pieces: &mut Row<CodePiece>,
    whose: Whose,
    place: usize,
    codes: &[u16],
) -> Result<(), NoMemory> {
    match codes.get(place) {
        Some(word) => pieces.push(CodePiece { whose, word: *word }),
        None => Ok(()),
    }
}
