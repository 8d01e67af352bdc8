// What is linked of a packed program and its linear one.
ghost use Rattle.std.specs.Prelude.{◌≡◌, map, IfOk};
ghost use Rattle.vg_compile.specs.Unlinked.{IsUnlinked};
ghost use Rattle.vg_compile.specs.Compile.{handler_of};

use std::alloc::Global;
use vg_base::{NoMemory, Row};
use vg_linear::Linear;
use vg_link::{Handler, Unlinked};
use vg_packed::{Entrance, FirmProgram};
use vg_place::Columns;
use vg_table_bytes::tables;

/// The procedures and the dispatches of the linear program, with the handlers and the bytes of the tables of the packed one.
pub fn unlinked(
    alloc: Global,
    columns: &Columns,
    firm: &FirmProgram,
    linear: Linear,
) -> Result<Unlinked, NoMemory>
    ensures unlinked { IfOk result (IsUnlinked columns.now firm.now linear) }
    ensures handlers { IfOk result (λ unlinked. unlinked.handlers ≡ map handler_of firm.now.handlers) }
{
    let tables = tables(alloc, firm, columns.list.as_slice())?;
    let handlers = handlers_of(alloc, firm.handlers.as_slice())?;
    let start = linear.start;
    let (procedures, dispatches) = linear.into_parts();
    Ok(Unlinked {
        procedures,
        start,
        dispatches,
        tables,
        static_bytes: columns.static_bytes,
        handlers,
    })
}

fn handlers_of(alloc: Global, entrances: &[Entrance]) -> Result<Row<Handler>, NoMemory>
    ensures { IfOk result (λ handlers. handlers ≡ map handler_of entrances.now) }
{
    let mut handlers = Row::new(alloc);
    for entrance in entrances {
        handlers.push(Handler {
            vector: entrance.vector,
            procedure: entrance.procedure,
        })?;
    }
    Ok(handlers)
}
