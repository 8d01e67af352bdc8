// Programs, and what their runs show.
use std::alloc::Global;
use std::io;
use vg_base::{NoMemory, Row};
use vg_lin::Instr;
use vg_lin_machine::run;
use vg_lin_states::{AnyProc, LinProgram};

/// A program without procedures, with three bytes in RAM, and a run that begins with procedure 0.
pub fn program(alloc: Global) -> Result<LinProgram, NoMemory> {
    Ok(LinProgram {
        procedures: Row::new(alloc),
        dispatches: Row::new(alloc),
        codes: Row::new(alloc),
        tables: Row::new(alloc),
        ram: Row::from_slice(alloc, &[1, 2, 3])?,
        handlers: Row::new(alloc),
        start: 0,
    })
}

/// The next procedure of a program, whose code number is 69 and twice its number. It is left out where more than four bytes are computed,
/// loaded, stored or compared.
pub fn add(
    alloc: Global,
    program: &mut LinProgram,
    method: Option<u16>,
    params: u8,
    result_width: u8,
    widths: &[u8],
    code: &[Instr],
) -> Result<(), NoMemory> {
    let widths = Row::from_slice(alloc, widths)?;
    let code = Row::from_vec(Vec::from_slice(alloc, code)?);
    let code_number = match program.codes.as_slice().last() {
        Some(last) => last.wrapping_add(2),
        None => 69,
    };
    match AnyProc::new(method, params, result_width, widths, code) {
        Some(procedure) => program.procedures.push(procedure)?,
        None => return Ok(()),
    }
    program.codes.push(code_number)
}

/// Prints the events of a run of at most so many steps, its openings, the oldest first, and its ending.
pub fn show(
    rt: &HostRuntime,
    name: &str,
    program: Result<LinProgram, NoMemory>,
    reads: &[u8],
    interrupts: &[u8],
    steps: u32,
) -> io::Result<()> {
    println!(rt; "{name}")?;
    let Ok(program) = program else {
        return Err(io::ErrorKind::OutOfMemory.into());
    };
    let Ok(machine) = run(rt.alloc(), &program, reads, interrupts, steps) else {
        return Err(io::ErrorKind::OutOfMemory.into());
    };
    for event in machine.environment().trace() {
        println!(rt; "  {event:?}")?;
    }
    for opening in machine.openings() {
        let methods = opening.methods();
        println!(rt; "  opens {methods:?}")?;
    }
    match machine.ending() {
        Some(end) => println!(rt; "  {end:?}"),
        None => println!(rt; "  goes on"),
    }
}
