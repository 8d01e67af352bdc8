// What a row answers.
use crate::files::{fetched, given_file, given_files, given_steadily};
use crate::sinks::{noted, nothing_kept, puts, ran, ran_unseen, shown};
use crate::statuses::status_told;
use crate::table::Table;
use itoa::Buffer;
use std::alloc::Global;
use vg_base::{NoMemory, Row};
use vg_words::{Command, command_of};

/// What the row of this kind answers: parts, each with a byte 0 behind it; none where the row can't be read.
pub fn answer_to(table: &mut Table, kind: &str, words: &str) -> Result<Option<Row<u8>>, NoMemory> {
    match kind {
        "words" => meaning(table, words),
        "puts" => puts(table, words),
        "null" => nothing_kept(table, words),
        "fetch" => fetched(table, words),
        "steady" => given_steadily(table, words),
        "whole" => given_file(table, words),
        "pair" => given_files(table, words),
        "run" => ran(table, words),
        "noted" => noted(table, words),
        "shown" => shown(table, words),
        "unseen" => ran_unseen(table, words),
        "status" => status_told(table.alloc, words),
        _ => Ok(None),
    }
}

/// Puts one part of an answer behind the others.
pub fn push_part(answer: &mut Row<u8>, part: &[u8]) -> Result<(), NoMemory> {
    answer.append(part)?;
    answer.push(0)
}

/// An answer of one part.
pub fn one_part(alloc: Global, part: &str) -> Result<Option<Row<u8>>, NoMemory> {
    let mut answer = Row::new(alloc);
    push_part(&mut answer, part.as_bytes())?;
    Ok(Some(answer))
}

/// The words that a line spells; none where one of them is not UTF-8.
pub fn words_of(table: &Table, words: &str) -> Result<Option<Vec<String>>, NoMemory> {
    let mut list = Vec::new(table.alloc);
    for word in words.split_whitespace() {
        let Some(bytes) = table.bytes_of(word)? else {
            return Ok(None);
        };
        let Ok(text) = String::from_utf8(bytes.into_vec()) else {
            return Ok(None);
        };
        list.push(text)?;
    }
    Ok(Some(list))
}

// `words WORD ..`: `build FILE STEPS` and behind it the stack that is asked for, `run FILE SCRIPT STEPS`, `sim HEX SCRIPT STEPS`, `why FILE MEMBER`,
// `try OBJECTS` or `none`.
fn meaning(table: &Table, words: &str) -> Result<Option<Row<u8>>, NoMemory> {
    let Some(list) = words_of(table, words)? else {
        return Ok(None);
    };
    let mut answer = Row::new(table.alloc);
    match command_of(&list) {
        None => push_part(&mut answer, b"none")?,
        Some(
            Command::Build {
                file,
                stack,
                init_steps,
            },
        ) => push_build(&mut answer, file, stack, init_steps)?,
        Some(
            Command::Run {
                file,
                script,
                steps,
            },
        ) => push_pair(&mut answer, "run", file, script, steps)?,
        Some(Command::Sim { hex, script, steps }) => {
            push_pair(&mut answer, "sim", hex, script, steps)?
        }
        Some(Command::Why { file, member }) => {
            push_part(&mut answer, b"why")?;
            push_part(&mut answer, file.as_bytes())?;
            push_part(&mut answer, member.as_bytes())?;
        }
        Some(Command::Try { objects }) => {
            push_part(&mut answer, b"try")?;
            push_part(&mut answer, Buffer::new().format(objects).as_bytes())?;
        }
    }
    Ok(Some(answer))
}

// The command `build`, its file, its steps, and the stack that it asks for.
fn push_build(
    answer: &mut Row<u8>,
    file: &str,
    stack: Option<u16>,
    init_steps: u32,
) -> Result<(), NoMemory> {
    push_part(answer, b"build")?;
    push_part(answer, file.as_bytes())?;
    push_part(answer, Buffer::new().format(init_steps).as_bytes())?;
    match stack {
        Some(bytes) => push_part(answer, Buffer::new().format(bytes).as_bytes()),
        None => Ok(()),
    }
}

// A command, its two files and its steps.
fn push_pair(
    answer: &mut Row<u8>,
    command: &str,
    first: &str,
    second: &str,
    steps: u32,
) -> Result<(), NoMemory> {
    push_part(answer, command.as_bytes())?;
    push_part(answer, first.as_bytes())?;
    push_part(answer, second.as_bytes())?;
    push_part(answer, Buffer::new().format(steps).as_bytes())
}
