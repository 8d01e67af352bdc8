// The pieces of code by their names.
use crate::known::Known;
use crate::names::{member_name, put_class, put_name};
use std::alloc::Global;
use vg_base::{NoMemory, Row};
use vg_core::Member;
use vg_layout::{CodePiece, Piece, Whose};

/// The pieces of code with their names and their lengths, where code ends at a word address: each piece goes up to the next one.
pub fn pieces_of(
    alloc: Global,
    known: Known<'_>,
    pieces: &[CodePiece],
    end: u32,
) -> Result<Row<Piece>, NoMemory> {
    let mut named = Row::new(alloc);
    for (place, piece) in pieces.iter().enumerate() {
        let next = match pieces.get(place + 1) {
            Some(next) => u32::from(next.word),
            None => end,
        };
        named.push(Piece {
            word: piece.word,
            words: next.saturating_sub(u32::from(piece.word)),
            name: piece_name(alloc, known, piece.whose)?,
        })?;
    }
    Ok(named)
}

fn piece_name(alloc: Global, known: Known<'_>, whose: Whose) -> Result<Row<u8>, NoMemory> {
    match whose {
        Whose::Start => Row::from_slice(alloc, b"start"),
        Whose::Routine(which) => Row::from_slice(alloc, routine_name(which)),
        Whose::Dispatch { class, method } => call_name(alloc, known, class, method),
        Whose::Method(method) => member_name(alloc, known, Member::Method(method)),
        Whose::Idle => Row::from_slice(alloc, b"idle"),
    }
}

// What is called by dispatch: the name of a method behind that of the class on which it is called, which need not declare it.
fn call_name(
    alloc: Global,
    known: Known<'_>,
    class: u16,
    method: u16,
) -> Result<Row<u8>, NoMemory> {
    let mut name = Row::from_slice(alloc, b"call ")?;
    put_class(&mut name, known, class)?;
    name.append(b".")?;
    let methods = known.program.tables.methods.as_slice();
    match methods.get(usize::from(method)) {
        Some(found) => put_name(&mut name, known, found.name)?,
        None => {}
    }
    Ok(name)
}

fn routine_name(which: u8) -> &'static [u8] {
    match which {
        0 => b"mul",
        1 => b"divide",
        2 => b"shl",
        _ => b"shr",
    }
}
