// How much stack calls need.
ghost use Rattle.std.specs.Prelude.{◌<◌, ◌≤◌, IfOk, length};
ghost use Rattle.vg_call_need.specs.Need.{IsNeed};

use crate::graph::call_graph;
use crate::need::Need;
use std::alloc::Global;
use vg_base::NoMemory;
use vg_bound::{Bound, bound};
use vg_packed::FirmProgram;

/// How much stack the active calls of a packed program need at most, by frames of methods in bytes, and with so many bytes beside them, where its procedures do
/// not idle: exactly what the calls of the dearest way from main or a handler take. Or procedures that call one another in turn, to which calls lead from there:
/// these are the answer just where there are any. It takes time that is linear in procedures and what they call.
pub fn stack_need(
    alloc: Global,
    firm: &FirmProgram,
    frames: &[u32],
    extra: u32,
) -> Result<Need, NoMemory>
    requires few { length firm.now.procedures ≤ 65536 }
    requires main { firm.now.main < length firm.now.procedures }
    ensures { IfOk result (IsNeed extra firm.now frames.now) }
{
    let mut graph = call_graph(alloc, firm, frames, extra)?;
    match bound(&mut graph) {
        Bound::Bytes(bytes) => Ok(Need::Bytes(bytes)),
        Bound::Cycle(_node) => {
            let cycle = graph.kept(alloc)?;
            Ok(Need::Cycle(cycle))
        }
    }
}
