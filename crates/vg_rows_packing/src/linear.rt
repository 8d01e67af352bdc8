// The linear code of packed programs: how much of it there is, and what it shows.
use crate::bytes::byte_of;
use crate::packing::Whole;
use crate::runs::{ROOM, shown};
use std::alloc::Global;
use vg_base::{IMAGE_TEXT_LIMIT, NoMemory, Refusal, Row};
use vg_codes::Case;
use vg_firm_machine::code_number;
use vg_flatten_shapes::Fault;
use vg_io::MemorySink;
use vg_lin::LinProc;
use vg_lin_machine::{End, run};
use vg_lin_states::{AnyProc, Handler, LinProgram};
use vg_linear::{Linear, make_linear};
use vg_packed::FirmProgram;
use vg_rows_lines::{TextLine, said, spelled};
use vg_script::{Script, put_event, read_script};
use vg_tables::Datum;

// The most steps of a run.
const STEPS: u32 = 3_000_000;

/// How many instructions the linear code of a text has: that of its methods and of its start, and that of the routines behind them.
pub fn counts_text(alloc: Global, whole: &Whole) -> Result<String, NoMemory> {
    let linear = match linear_of(alloc, whole) {
        Ok(linear) => linear,
        Err(Refusal::Fault(why)) => return none_text(alloc, why),
        Err(Refusal::NoMemory) => return Err(NoMemory),
    };
    let start = usize::from(linear.start);
    let mut own = 0usize;
    let mut routines = 0usize;
    for (number, procedure) in linear.procedures.as_slice().iter().enumerate() {
        let count = procedure.code().len();
        if number > start {
            routines = routines.saturating_add(count);
        } else {
            own = own.saturating_add(count);
        }
    }
    Ok(format!(in alloc; "{own} and {routines}")?)
}

/// What the linear code of a text shows on the script of a line, with a comma behind each event, and how it ends.
pub fn linear_played(alloc: Global, whole: &Whole, line: TextLine<'_>) -> Result<String, NoMemory> {
    let script = spelled(alloc, line.word)?;
    if script.len() > IMAGE_TEXT_LIMIT {
        return said(alloc, "too long");
    }
    let Ok(script) = read_script(alloc, script.as_slice()) else {
        return said(alloc, "no script");
    };
    match linear_of(alloc, whole) {
        Ok(linear) => run_on(alloc, whole, &linear, &script),
        Err(Refusal::Fault(why)) => none_text(alloc, why),
        Err(Refusal::NoMemory) => Err(NoMemory),
    }
}

// Why there is no linear code.
fn none_text(alloc: Global, why: Fault) -> Result<String, NoMemory> {
    match why {
        Fault::NotTaken => said(alloc, "not taken"),
        Fault::TooHigh => said(alloc, "too high"),
        Fault::TooLong => said(alloc, "too long"),
    }
}

fn linear_of(alloc: Global, whole: &Whole) -> Result<Linear, Refusal<Fault>> {
    let program = &whole.program;
    if usize::from(program.main) >= program.procedures.len() {
        return Err(Refusal::Fault(Fault::NotTaken));
    }
    make_linear(alloc, whole.fitted.placed.columns.list.as_slice(), program)
}

fn run_on(
    alloc: Global,
    whole: &Whole,
    linear: &Linear,
    script: &Script,
) -> Result<String, NoMemory> {
    let program = program_of(alloc, whole, linear)?;
    let machine = run(alloc, &program, script.reads(), script.interrupts(), STEPS)?;
    let mut sink = MemorySink::with_room(alloc, ROOM)?;
    for event in machine.environment().trace() {
        if put_event(*event, &mut sink).is_err() {
            return said(alloc, "no room");
        }
    }
    let mut text = shown(alloc, sink.bytes())?;
    let end = end_text(alloc, machine.ending())?;
    text.push_str(end.as_str())?;
    Ok(text)
}

// The program that runs: its code numbers are those of the tables, and RAM begins as the tables do.
fn program_of(alloc: Global, whole: &Whole, linear: &Linear) -> Result<LinProgram, NoMemory> {
    let bytes = whole.bytes.as_slice();
    let in_ram = usize::from(whole.fitted.placed.columns.static_bytes);
    Ok(LinProgram {
        procedures: procedures_of(alloc, linear.procedures.as_slice())?,
        dispatches: dispatches_of(alloc, linear)?,
        codes: codes_of(alloc, linear.procedures.len())?,
        tables: first_bytes(alloc, bytes, bytes.len())?,
        ram: first_bytes(alloc, bytes, in_ram)?,
        handlers: handlers_of(alloc, &whole.program)?,
        start: linear.start,
    })
}

fn procedures_of(alloc: Global, procedures: &[LinProc]) -> Result<Row<AnyProc>, NoMemory> {
    let mut all = Row::new(alloc);
    for procedure in procedures {
        all.push(AnyProc::of(alloc, procedure)?)?;
    }
    Ok(all)
}

fn dispatches_of(alloc: Global, linear: &Linear) -> Result<Row<Row<Case>>, NoMemory> {
    let mut all = Row::new(alloc);
    for cases in linear.dispatches.as_slice() {
        all.push(Row::from_vec(Vec::from_slice(alloc, cases.as_slice())?))?;
    }
    Ok(all)
}

// The code numbers of so many procedures.
fn codes_of(alloc: Global, count: usize) -> Result<Row<u16>, NoMemory> {
    let mut codes = Row::new(alloc);
    for number in 0..count {
        codes.push((code_number((number % 65_536) as u16) % 65_536) as u16)?;
    }
    Ok(codes)
}

// The first so many bytes.
fn first_bytes(alloc: Global, bytes: &[Datum], count: usize) -> Result<Row<u8>, NoMemory> {
    let mut first = Row::new(alloc);
    for datum in bytes.iter().take(count) {
        first.push((byte_of(*datum) % 256) as u8)?;
    }
    Ok(first)
}

fn handlers_of(alloc: Global, program: &FirmProgram) -> Result<Row<Handler>, NoMemory> {
    let mut all = Row::new(alloc);
    for entrance in program.handlers.as_slice() {
        all.push(Handler {
            vector: entrance.vector,
            procedure: entrance.procedure,
        })?;
    }
    Ok(all)
}

// How a run ends.
fn end_text(alloc: Global, end: Option<End>) -> Result<String, NoMemory> {
    match end {
        None => said(alloc, "budget"),
        Some(End::Done) => said(alloc, "idle"),
        Some(End::Stopped(code)) => Ok(format!(in alloc; "stop {code}")?),
        Some(End::NoRead(address)) => Ok(format!(in alloc; "wants {address:02x}")?),
        Some(End::Wrong) => said(alloc, "wrong"),
    }
}
