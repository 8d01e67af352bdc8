// Whether the calls of some way cost as much as is needed.
ghost use Rattle.std.specs.Prelude.{◌↔◌, ◌<◌, ◌≤◌, IfOk, IsTrue, length};
ghost use Rattle.vg_call_need.specs.Within.{IsSpentWithin};

use crate::bounding::stack_need;
use crate::need::Need;
use std::alloc::Global;
use vg_base::NoMemory;
use vg_packed::FirmProgram;

/// Whether so many bytes are at least four, and at most four more than the calls of some way from main or a handler cost, by costs of methods in bytes. It takes
/// time that is linear in procedures and what they call.
#[tactic(auto, using(crate::proofs::Spent::spent_within))]
pub fn is_spent(
    alloc: Global,
    firm: &FirmProgram,
    costs: &[u32],
    need: u64,
) -> Result<bool, NoMemory>
    requires few { length firm.now.procedures ≤ 65536 }
    requires main { firm.now.main < length firm.now.procedures }
    ensures { IfOk result (λ spent. IsTrue spent → IsSpentWithin firm.now costs.now need) }
{
    match stack_need(alloc, firm, costs, 4)? {
        Need::Bytes(paid) => Ok(is_between(need, paid)),
        Need::Cycle(_) => Ok(false),
    }
}

fn is_between(need: u64, paid: u64) -> bool
    ensures { IsTrue result ↔ (4 ≤ need) × (need ≤ paid) }
{
    4 <= need && need <= paid
}
