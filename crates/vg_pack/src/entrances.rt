// Entries.
ghost use Rattle.std.specs.Prelude.{◌≡◌, IfOk, map};
ghost use Rattle.vg_pack.specs.Entrances.{entrance};

use std::alloc::Global;
use vg_base::{NoMemory, Row};
use vg_core::Handler;
use vg_pack_code::Plan;
use vg_packed::Entrance;

/// The handlers with the procedures of their methods.
pub fn entrances(
    alloc: Global,
    plan: &Plan,
    handlers: &[Handler],
) -> Result<Row<Entrance>, NoMemory>
    ensures { IfOk result (λ row. row ≡ map (entrance plan.now) handlers.now) }
{
    let mut row = Row::new(alloc);
    for handler in handlers {
        row.push(Entrance {
            vector: handler.vector,
            procedure: plan.procedure(handler.method),
        })?;
    }
    Ok(row)
}
