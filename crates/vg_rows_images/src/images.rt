// What the machine shows in the image of a text, and what its layout says.
ghost use Rattle.std.specs.Prelude.{◌≤◌, IfSome};

use avr_isa::{Image, MachineEnd};
use avr_sim::Machine;
use std::alloc::Global;
use vg_base::{IMAGE_TEXT_LIMIT, NoMemory, Refusal, TEXT_LIMIT};
use vg_build::build;
use vg_faults::{Fault, INIT_STEPS};
use vg_io::MemorySink;
use vg_rows_lines::{TextLine, said, spelled};
use vg_script::{Script, read_script};

// The bytes of room for the lines of a run.
const ROOM: usize = 1_000_000;

// The most instructions of a run.
const STEPS: u32 = 20_000_000;

/// What a line asks of the image of its text. `run` with a script: what the machine shows in it, with a comma behind each event, and how it ends. `layout` with a
/// stack in bytes, or none: the lines of its layout, with a comma behind each, but for those of `idle` and of `code`, which depend on each instruction. Or else why
/// there is no image.
pub fn answer_of(alloc: Global, line: TextLine<'_>) -> Result<String, NoMemory> {
    match line.question {
        "layout" => laid_answer(alloc, line),
        _ => run_answer(alloc, line),
    }
}

fn run_answer(alloc: Global, line: TextLine<'_>) -> Result<String, NoMemory> {
    let text = spelled(alloc, line.text)?;
    let script = spelled(alloc, line.word)?;
    if text.len() > TEXT_LIMIT || script.len() > IMAGE_TEXT_LIMIT {
        return said(alloc, "too long");
    }
    let Ok(script) = read_script(alloc, script.as_slice()) else {
        return said(alloc, "no script");
    };
    match build(alloc, text.as_slice(), None, INIT_STEPS) {
        Ok(built) => played(alloc, &built.image, &script),
        Err(Refusal::Fault(fault)) => refused(alloc, &fault),
        Err(Refusal::NoMemory) => Err(NoMemory),
    }
}

fn laid_answer(alloc: Global, line: TextLine<'_>) -> Result<String, NoMemory> {
    let text = spelled(alloc, line.text)?;
    if text.len() > TEXT_LIMIT {
        return said(alloc, "too long");
    }
    match build(alloc, text.as_slice(), stack_in(line.word), INIT_STEPS) {
        Ok(built) => laid(alloc, built.note.as_slice()),
        Err(Refusal::Fault(fault)) => refused(alloc, &fault),
        Err(Refusal::NoMemory) => Err(NoMemory),
    }
}

// The stack that a word asks for, from 1 to 4,096 bytes.
fn stack_in(word: &str) -> Option<u16>
    ensures { IfSome result (λ bytes. (1 ≤ bytes) × (bytes ≤ 4096)) }
{
    match word.parse::<u16>() {
        Ok(bytes) => {
            if bytes >= 1 && bytes <= 4096 {
                Some(bytes)
            } else {
                None
            }
        }
        Err(_) => None,
    }
}

// The lines of a layout, with a comma behind each but for the last, and without those of `idle` and of `code`.
fn laid(alloc: Global, note: &[u8]) -> Result<String, NoMemory> {
    let mut text = String::new(alloc);
    let mut line = String::new(alloc);
    for byte in note {
        match *byte {
            b'\n' => {
                put_line(&mut text, line.as_str())?;
                line.clear();
            }
            other => line.push(char::from(other))?,
        }
    }
    Ok(text)
}

fn put_line(text: &mut String, line: &str) -> Result<(), NoMemory> {
    if line.starts_with("idle ") || line.starts_with("code ") {
        return Ok(());
    }
    if !text.is_empty() {
        text.push_str(", ")?;
    }
    text.push_str(line)?;
    Ok(())
}

// What the machine shows in an image.
fn played(alloc: Global, image: &Image, script: &Script) -> Result<String, NoMemory> {
    let machine = Machine::new(alloc, image)?;
    let mut sink = MemorySink::with_room(alloc, ROOM)?;
    let Ok(end) = machine.run(script, STEPS, &mut sink) else {
        return said(alloc, "no room");
    };
    let mut text = shown(alloc, sink.bytes())?;
    let end = end_text(alloc, end)?;
    text.push_str(end.as_str())?;
    Ok(text)
}

// The lines of a trace, with a comma behind each.
fn shown(alloc: Global, bytes: &[u8]) -> Result<String, NoMemory> {
    let mut text = String::new(alloc);
    for byte in bytes {
        match *byte {
            b'\n' => text.push_str(", ")?,
            other => text.push(char::from(other))?,
        }
    }
    Ok(text)
}

// How a run ends.
fn end_text(alloc: Global, end: Option<MachineEnd>) -> Result<String, NoMemory> {
    match end {
        None => said(alloc, "budget"),
        Some(MachineEnd::Idle) => said(alloc, "idle"),
        Some(MachineEnd::Stop(code)) => Ok(format!(in alloc; "stop {code}")?),
        Some(MachineEnd::Wants(address)) => Ok(format!(in alloc; "wants {address:02x}")?),
        Some(MachineEnd::Bad { pc, word }) => Ok(format!(in alloc; "bad {pc:04x} {word:04x}")?),
    }
}

// Why a text has no image.
fn refused(alloc: Global, fault: &Fault) -> Result<String, NoMemory> {
    match fault {
        Fault::StaticFull { need } => Ok(format!(in alloc; "static full {need}")?),
        Fault::TableFull { need } => Ok(format!(in alloc; "table full {need}")?),
        Fault::StackFull { need, left } => Ok(format!(in alloc; "stack full {need} {left}")?),
        Fault::CodeFull { words } => Ok(format!(in alloc; "code full {words}")?),
        Fault::NotBuilt(_) => said(alloc, "not built"),
        Fault::Allocates { .. } => said(alloc, "allocates"),
        _ => said(alloc, "refused"),
    }
}
