// The procedures at which calls begin.
ghost use Rattle.std.specs.Prelude.{◌≡◌, ◌++◌, IfOk, OnOk};
ghost use Rattle.vg_packed.specs.Programs.{handler_in};
ghost use Rattle.vg_call_need.specs.Graph.{below, entries_of, kept, one_or_none};

use std::alloc::Global;
use vg_base::{NoMemory, Row};
use vg_packed::{Entrance, FirmProgram};

/// Main, and the procedures of handlers, of which there is at most one for each interrupt.
pub fn entries_of(alloc: Global, firm: &FirmProgram) -> Result<Row<u16>, NoMemory>
    ensures { IfOk result (λ row. row ≡ entries_of firm.now) }
{
    let mut row = Row::new(alloc);
    row.push(firm.main)?;
    let handlers = firm.handlers.as_slice();
    for handler in handlers {
        put_one(&mut row, handler_of(handlers, handler.vector))?;
    }
    Ok(row)
}

fn put_one(row: &mut Row<u16>, found: Option<u16>) -> Result<(), NoMemory>
    ensures { OnOk result (row.new ≡ row.old ++ one_or_none found) }
{
    match found {
        Some(procedure) => row.push(procedure),
        None => Ok(()),
    }
}

/// The procedure of the handler of an interrupt, by the number of its vector: of two handlers for one vector that of the first, and none where there is no handler.
pub fn handler_of(handlers: &[Entrance], vector: u8) -> Option<u16>
    ensures { result ≡ handler_in handlers.now vector }
{
    match handlers {
        [] => None,
        [handler, more @ ..] => {
            if handler.vector == vector {
                Some(handler.procedure)
            } else {
                handler_of(more, vector)
            }
        }
    }
}

/// Those of some procedures of which the place is below a count.
pub fn below(alloc: Global, count: usize, procedures: &[u16]) -> Result<Row<u16>, NoMemory>
    ensures { IfOk result (λ row. row ≡ below count procedures.now) }
{
    let mut row = Row::new(alloc);
    for procedure in procedures {
        keep(&mut row, count, *procedure)?;
    }
    Ok(row)
}

fn keep(row: &mut Row<u16>, count: usize, procedure: u16) -> Result<(), NoMemory>
    ensures { OnOk result (row.new ≡ row.old ++ kept count procedure) }
{
    if usize::from(procedure) < count {
        row.push(procedure)
    } else {
        Ok(())
    }
}
