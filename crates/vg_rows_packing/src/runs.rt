// What packed programs show.
use crate::bytes::{arrays_of, memory_of};
use crate::packing::Whole;
use std::alloc::Global;
use vg_base::{IMAGE_TEXT_LIMIT, NoMemory};
use vg_firm_machine::{End, Machine, Packed};
use vg_io::MemorySink;
use vg_meaning::Event;
use vg_packed::{Entrance, FirmProgram};
use vg_rows_lines::{TextLine, said, spelled};
use vg_script::{Script, read_script};

/// The bytes of room for the lines of a run.
pub const ROOM: usize = 1_000_000;

/// What the packed program shows on the script of a line, with a comma behind each event, and how it ends. It begins with what its tables say.
pub fn played(alloc: Global, whole: &Whole, line: TextLine<'_>) -> Result<String, NoMemory> {
    let script = spelled(alloc, line.word)?;
    if script.len() > IMAGE_TEXT_LIMIT {
        return said(alloc, "too long");
    }
    let Ok(script) = read_script(alloc, script.as_slice()) else {
        return said(alloc, "no script");
    };
    let (_, ticks) = line.question.split_once(':').unwrap_or((line.question, ""));
    let ticks = ticks.parse::<u32>().unwrap_or(1_000_000);
    run_on(alloc, whole, &script, ticks)
}

fn run_on(alloc: Global, whole: &Whole, script: &Script, ticks: u32) -> Result<String, NoMemory> {
    let columns = whole.fitted.placed.columns.list.as_slice();
    let bytes = whole.bytes.as_slice();
    let memory = memory_of(alloc, columns, bytes)?;
    let arrays = arrays_of(alloc, columns, bytes)?;
    let packed = Packed {
        procedures: whole.program.procedures.as_slice(),
        dispatches: whole.program.dispatches.as_slice(),
        tables: arrays.as_slice(),
    };
    let sink = MemorySink::with_room(alloc, ROOM)?;
    let mut machine = Machine::new(alloc, packed, memory, script.reads(), ticks, sink);
    let ended = session(&mut machine, &whole.program, script.interrupts());
    let mut text = shown(alloc, machine.lines())?;
    let end = end_text(alloc, ended)?;
    text.push_str(end.as_str())?;
    Ok(text)
}

// Main is called, and then each interrupt is taken.
fn session(machine: &mut Machine<'_>, program: &FirmProgram, interrupts: &[u8]) -> Result<(), End> {
    machine.run(program.main)?;
    for vector in interrupts {
        machine.show(Event::Enter(*vector))?;
        if let Some(procedure) = handler_of(program.handlers.as_slice(), *vector) {
            machine.run(procedure)?;
        }
    }
    Ok(())
}

// The procedure of the handler of an interrupt, where it has one.
fn handler_of(handlers: &[Entrance], vector: u8) -> Option<u16> {
    for handler in handlers {
        if handler.vector == vector {
            return Some(handler.procedure);
        }
    }
    None
}

/// The lines of a trace, with a comma behind each.
pub fn shown(alloc: Global, bytes: &[u8]) -> Result<String, NoMemory> {
    let mut text = String::new(alloc);
    for byte in bytes {
        match *byte {
            b'\n' => text.push_str(", ")?,
            other => text.push(char::from(other))?,
        }
    }
    Ok(text)
}

// How a run ends.
fn end_text(alloc: Global, ended: Result<(), End>) -> Result<String, NoMemory> {
    let Err(end) = ended else {
        return said(alloc, "idle");
    };
    match end {
        End::Stop(code) => Ok(format!(in alloc; "stop {code}")?),
        End::Wants(address) => Ok(format!(in alloc; "wants {address:02x}")?),
        End::Clock => said(alloc, "budget"),
        End::Depth => said(alloc, "depth"),
        End::Turns => said(alloc, "too many turns"),
        End::Room => said(alloc, "no room"),
        End::Wrong(why) => Ok(format!(in alloc; "wrong: {why}")?),
        End::NoMemory => Err(NoMemory),
    }
}
