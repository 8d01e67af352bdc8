// From a text to its packed program.
ghost use Rattle.std.specs.Prelude.{◌≤◌, length};
ghost use Rattle.vg_base.specs.Limits.{text_limit};
ghost use Rattle.vg_core.specs.HeldProgram.{program_at};
ghost use Rattle.vg_packed.specs.Given.{IsGiven};

use std::alloc::Global;
use vg_base::{NoMemory, Refusal, Row};
use vg_faults::{Fault, INIT_STEPS};
use vg_fits::{Fitted, fit};
use vg_pack::pack;
use vg_packed::FirmProgram;
use vg_rows_lines::said;
use vg_table_bytes::tables;
use vg_tables::Datum;

/// A text that fits, its packed program, and the bytes of its tables.
#[derive(Drop)]
pub struct Whole {
    pub fitted: Fitted,
    pub program: FirmProgram,
    pub bytes: Row<Datum>,
}

/// What is packed of a text; or the fault that it has.
pub fn packed(alloc: Global, text: &[u8]) -> Result<Whole, Refusal<Fault>>
    requires { length text.now ≤ text_limit }
{
    match fit(alloc, text, INIT_STEPS) {
        Ok(fitted) => match pack_fitted(alloc, &fitted) {
            Ok(program) => Ok(whole_of(alloc, fitted, program)?),
            Err(_) => Err(Refusal::NoMemory),
        },
        Err(refusal) => Err(refusal),
    }
}

// The packed program of a text that fits.
fn pack_fitted(alloc: Global, fitted: &Fitted) -> Result<FirmProgram, NoMemory>
    requires { IsGiven (program_at fitted.now.alive.start.program) fitted.now.alive.start.heap fitted.now.alive.live fitted.now.placed.numbers fitted.now.placed.columns }
{
    let start = &fitted.alive.start;
    pack(
        alloc,
        &start.program,
        &start.heap,
        &fitted.alive.live,
        &fitted.placed.numbers,
        &fitted.placed.columns,
    )
}

// The same with the bytes of the tables.
fn whole_of(alloc: Global, fitted: Fitted, program: FirmProgram) -> Result<Whole, NoMemory> {
    let bytes = tables(alloc, &program, fitted.placed.columns.list.as_slice())?;
    Ok(Whole {
        fitted,
        program,
        bytes,
    })
}

/// Why a text has no packed program.
pub fn refused(alloc: Global, fault: &Fault) -> Result<String, NoMemory> {
    match fault {
        Fault::StaticFull { need } => Ok(format!(in alloc; "static full {need}")?),
        Fault::TableFull { need } => Ok(format!(in alloc; "table full {need}")?),
        Fault::Allocates { .. } => said(alloc, "allocates"),
        _ => said(alloc, "refused"),
    }
}
