// What a program shows.
ghost use Rattle.std.specs.Prelude.{◌≤◌, length};
ghost use Rattle.vg_base.specs.Limits.{text_limit};
ghost use Rattle.vg_core.specs.HeldProgram.{program_at};
ghost use Rattle.vg_core.specs.Typing.{WellTyped};
ghost use Rattle.vg_sound.specs.Good.{HasTypedHeap};

use crate::faults::fault_text;
use std::alloc::Global;
use vg_base::{IMAGE_TEXT_LIMIT, NoMemory, Refusal};
use vg_front::{Start, started};
use vg_io::MemorySink;
use vg_rows_lines::{TextLine, said, spelled};
use vg_script::{Script, read_script};
use vg_session::{Session, SessionEnd};

/// What the trace of a line of the table holds at most.
const ROOM: usize = 16_000_000;

/// What a line asks, and how many ticks, or which put.
#[derive(Clone, Copy)]
struct Asked<'a> {
    what: &'a str,
    number: Option<u32>,
}

/// What a text shows on the script of a line: why its program is not initialised, or its trace, and how it ends.
pub fn played(alloc: Global, text: &[u8], line: TextLine<'_>) -> Result<String, NoMemory>
    requires { length text.now ≤ text_limit }
{
    let script = spelled(alloc, line.word)?;
    if script.len() > IMAGE_TEXT_LIMIT {
        return said(alloc, "too long");
    }
    let Ok(script) = read_script(alloc, script.as_slice()) else {
        return said(alloc, "no script");
    };
    let asked = asked_in(line.question);
    let clock = if asked.what == "init" {
        asked.number.unwrap_or(0)
    } else {
        1_000_000
    };
    match started(alloc, text, clock) {
        Ok(start) => session_of(alloc, start, &script, asked),
        Err(Refusal::Fault(fault)) => fault_text(alloc, fault),
        Err(Refusal::NoMemory) => Err(NoMemory),
    }
}

// What a question asks: a word, and a number behind a colon.
fn asked_in(question: &str) -> Asked<'_> {
    let (what, number) = question.split_once(':').unwrap_or((question, ""));
    Asked {
        what,
        number: number.parse::<u32>().ok(),
    }
}

// What the session of a program shows.
fn session_of(
    alloc: Global,
    start: Start,
    script: &Script,
    asked: Asked<'_>,
) -> Result<String, NoMemory>
    requires typed { WellTyped (program_at start.program) }
    requires heap { HasTypedHeap start.program.tables start.heap }
{
    let mut sink = MemorySink::with_room(alloc, ROOM)?;
    let mut budget = 10_000_000;
    if let Some(number) = asked.number {
        if asked.what == "fail" {
            sink.fail_on(number, 3);
            budget = 100_000;
        } else if asked.what == "run" {
            budget = number;
        }
    }
    let (program, heap) = start.into_program_and_heap();
    let ended = Session::new(alloc, &program, heap).run(script, budget, &mut sink);
    let lines = if asked.what == "count" {
        counted(alloc, sink.bytes())?
    } else {
        shown(alloc, sink.bytes())?
    };
    let end = end_text(alloc, ended)?;
    Ok(format!(in alloc; "{}{}", lines.as_str(), end.as_str())?)
}

// The lines of a trace, with a comma behind each.
fn shown(alloc: Global, bytes: &[u8]) -> Result<String, NoMemory> {
    let mut text = String::new(alloc);
    for byte in bytes {
        match *byte {
            b'\n' => text.push_str(", ")?,
            other => text.push(char::from(other))?,
        }
    }
    Ok(text)
}

// How many lines there are.
fn counted(alloc: Global, bytes: &[u8]) -> Result<String, NoMemory> {
    let mut count = 0u64;
    for byte in bytes {
        if *byte == b'\n' {
            count = count.saturating_add(1);
        }
    }
    Ok(format!(in alloc; "{count} events, ")?)
}

// How a session ends.
fn end_text(alloc: Global, ended: SessionEnd) -> Result<String, NoMemory> {
    match ended {
        SessionEnd::Idle => said(alloc, "idle"),
        SessionEnd::Stop(code) => Ok(format!(in alloc; "stop {code}")?),
        SessionEnd::Wants(address) => Ok(format!(in alloc; "wants {address:02x}")?),
        SessionEnd::Budget => said(alloc, "budget"),
        SessionEnd::Depth => said(alloc, "depth"),
        SessionEnd::SinkFailed => said(alloc, " failed"),
        SessionEnd::NoMemory => Err(NoMemory),
    }
}
