// Rows of sinks, and of the top call.
use crate::answers::{one_part, push_part, words_of};
use crate::statuses::told;
use crate::table::{FailingPut, Table};
use itoa::Buffer;
use std::alloc::Global;
use vg_base::{NoMemory, Row};
use vg_drive::run;
use vg_io::{MemorySink, NullSink, Sink};

/// The bytes that a sink of the top call has room for.
const ROOM: usize = 1000;

/// `puts ROOM CALL KEPT PIECE PIECE`: `ok` or `failed` for each of two puts, and the bytes that the sink took.
pub fn puts(table: &Table, words: &str) -> Result<Option<Row<u8>>, NoMemory> {
    let Some((room, rest)) = words.split_once(' ') else {
        return Ok(None);
    };
    let Some((call, rest)) = rest.split_once(' ') else {
        return Ok(None);
    };
    let Some((kept, pieces)) = rest.split_once(' ') else {
        return Ok(None);
    };
    let (Ok(room), Ok(call), Ok(kept)) = (
        room.parse::<u32>(),
        call.parse::<u32>(),
        kept.parse::<u32>(),
    ) else {
        return Ok(None);
    };
    let failing = FailingPut {
        call,
        kept: kept as usize,
    };
    let mut sink = sink_with(table.alloc, room as usize, Some(failing))?;
    let mut answer = Row::new(table.alloc);
    for piece in pieces.split_whitespace() {
        push_part(
            &mut answer,
            put_told(&mut sink, piece.as_bytes()).as_bytes(),
        )?;
    }
    push_part(&mut answer, sink.bytes())?;
    Ok(Some(answer))
}

/// `null PIECE`: `ok`, or `failed`, by the sink that keeps nothing.
pub fn nothing_kept(table: &Table, words: &str) -> Result<Option<Row<u8>>, NoMemory> {
    let mut sink = NullSink::new();
    one_part(table.alloc, put_told(&mut sink, words.as_bytes()))
}

/// `run WORD ..`: the number of the status, and what `out` and `note` hold. How they fail is for this row alone.
pub fn ran(table: &mut Table, words: &str) -> Result<Option<Row<u8>>, NoMemory> {
    let Some(list) = words_of(table, words)? else {
        return Ok(None);
    };
    let mut out = sink_with(table.alloc, ROOM, table.out)?;
    let mut note = sink_with(table.alloc, ROOM, table.note)?;
    table.out = None;
    table.note = None;
    let status = run(table.alloc, &list, &mut table.shelf, &mut out, &mut note);
    let mut answer = Row::new(table.alloc);
    push_part(&mut answer, Buffer::new().format(status.code()).as_bytes())?;
    push_part(&mut answer, out.bytes())?;
    push_part(&mut answer, note.bytes())?;
    Ok(Some(answer))
}

/// `noted WORD ..`: the number of the status, and what `note` holds, with the shelf that never fails and an `out` that keeps nothing.
pub fn noted(table: &mut Table, words: &str) -> Result<Option<Row<u8>>, NoMemory> {
    let Some(list) = words_of(table, words)? else {
        return Ok(None);
    };
    let mut note = sink_with(table.alloc, ROOM, None)?;
    let status = run(
        table.alloc,
        &list,
        &mut table.steady,
        &mut NullSink::new(),
        &mut note,
    );
    let mut answer = Row::new(table.alloc);
    push_part(&mut answer, Buffer::new().format(status.code()).as_bytes())?;
    push_part(&mut answer, note.bytes())?;
    Ok(Some(answer))
}

/// `shown WORD ..`: the number of the status, and what `out` holds, with the shelf that never fails and a `note` that keeps nothing. How `out` fails is for this
/// row alone.
pub fn shown(table: &mut Table, words: &str) -> Result<Option<Row<u8>>, NoMemory> {
    let Some(list) = words_of(table, words)? else {
        return Ok(None);
    };
    let mut out = sink_with(table.alloc, ROOM, table.out)?;
    table.out = None;
    let status = run(
        table.alloc,
        &list,
        &mut table.steady,
        &mut out,
        &mut NullSink::new(),
    );
    let mut answer = Row::new(table.alloc);
    push_part(&mut answer, Buffer::new().format(status.code()).as_bytes())?;
    push_part(&mut answer, out.bytes())?;
    Ok(Some(answer))
}

/// `unseen WORD ..`: the number of the status and its fault line, with the shelf that never fails and sinks that keep nothing.
pub fn ran_unseen(table: &mut Table, words: &str) -> Result<Option<Row<u8>>, NoMemory> {
    let Some(list) = words_of(table, words)? else {
        return Ok(None);
    };
    let status = run(
        table.alloc,
        &list,
        &mut table.steady,
        &mut NullSink::new(),
        &mut NullSink::new(),
    );
    told(table.alloc, &status)
}

// A sink with so much room, of which a put may be set to fail.
fn sink_with(
    alloc: Global,
    room: usize,
    failing: Option<FailingPut>,
) -> Result<MemorySink, NoMemory> {
    let mut sink = MemorySink::with_room(alloc, room)?;
    if let Some(put) = failing {
        sink.fail_on(put.call, put.kept);
    }
    Ok(sink)
}

fn put_told<S: Sink>(sink: &mut S, piece: &[u8]) -> &'static str {
    match sink.put(piece) {
        Ok(()) => "ok",
        Err(_) => "failed",
    }
}
