// Rows of shelves.
ghost use Rattle.std.specs.Prelude.{◌<◌, ◌^◌, ◌-◌, IfSome};

use crate::answers::{one_part, push_part};
use crate::table::Table;
use std::alloc::Global;
use vg_base::{NoMemory, Row};
use vg_fetch::{NoFile, fetch_file, fetch_two};
use vg_io::{FetchFault, Shelf};

/// `fetch NAME LIMIT`: `given BYTES` or `failed`, by the shelf in memory.
pub fn fetched(table: &mut Table, words: &str) -> Result<Option<Row<u8>>, NoMemory> {
    let Some((name, limit)) = name_and_limit(words) else {
        return Ok(None);
    };
    let given = table.shelf.fetch(name, limit);
    fetch_told(table.alloc, given)
}

/// `steady NAME LIMIT`: the same, by the shelf that never fails.
pub fn given_steadily(table: &mut Table, words: &str) -> Result<Option<Row<u8>>, NoMemory> {
    let Some((name, limit)) = name_and_limit(words) else {
        return Ok(None);
    };
    let given = table.steady.fetch(name, limit);
    fetch_told(table.alloc, given)
}

/// `whole NAME LIMIT`: `given BYTES`, `failed` or `long`.
pub fn given_file(table: &mut Table, words: &str) -> Result<Option<Row<u8>>, NoMemory> {
    let Some((name, limit)) = name_and_limit(words) else {
        return Ok(None);
    };
    match fetch_file(&mut table.shelf, name, limit) {
        Ok(bytes) => given(table.alloc, bytes.as_slice(), None),
        Err(reason) => missing(table.alloc, reason),
    }
}

/// `pair FIRST SECOND LIMIT`: `given BYTES BYTES`, `failed` or `long`.
pub fn given_files(table: &mut Table, words: &str) -> Result<Option<Row<u8>>, NoMemory> {
    let Some((first, rest)) = words.split_once(' ') else {
        return Ok(None);
    };
    let Some((second, limit)) = name_and_limit(rest) else {
        return Ok(None);
    };
    match fetch_two(&mut table.shelf, first, limit, second, limit) {
        Ok((front, behind)) => given(table.alloc, front.as_slice(), Some(behind.as_slice())),
        Err(reason) => missing(table.alloc, reason),
    }
}

// A name and a limit, which is below 2^32.
fn name_and_limit(words: &str) -> Option<(&str, usize)>
    ensures { IfSome result (λ pair. pair.1 < 2 ^ 32) }
{
    let (name, limit) = words.split_once(' ')?;
    Some((name, limit.parse::<u32>().ok()? as usize))
}

fn fetch_told(
    alloc: Global,
    bytes: Result<Vec<u8>, FetchFault>,
) -> Result<Option<Row<u8>>, NoMemory> {
    match bytes {
        Ok(bytes) => given(alloc, bytes.as_slice(), None),
        Err(FetchFault::Failed) => one_part(alloc, "failed"),
        Err(FetchFault::NoMemory) => Err(NoMemory),
    }
}

fn given(alloc: Global, first: &[u8], second: Option<&[u8]>) -> Result<Option<Row<u8>>, NoMemory> {
    let mut answer = Row::new(alloc);
    push_part(&mut answer, b"given")?;
    push_part(&mut answer, first)?;
    if let Some(second) = second {
        push_part(&mut answer, second)?;
    }
    Ok(Some(answer))
}

fn missing(alloc: Global, reason: NoFile) -> Result<Option<Row<u8>>, NoMemory> {
    match reason {
        NoFile::Failed => one_part(alloc, "failed"),
        NoFile::Long => one_part(alloc, "long"),
        NoFile::Wanting => Err(NoMemory),
    }
}
