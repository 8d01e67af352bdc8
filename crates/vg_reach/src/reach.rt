// What is live, and why.
ghost use Rattle.std.specs.Prelude.{◌≡◌, ◌↔◌, None, Some};
ghost use Rattle.vg_core.specs.declared.heap.Heap.{Heap};
ghost use Rattle.vg_core.specs.HeldProgram.{program_at};
ghost use Rattle.vg_core.specs.Program as programs;
ghost use Rattle.vg_live.specs.Rules.{Live};
ghost use Rattle.vg_live.specs.Sets.{IsLiveSet, reason_of};
ghost use Rattle.vg_reach.specs.Reaches.{Reaches};

use crate::closing::closed;
use crate::making::{Allocates, first_maker};
use std::alloc::Global;
use vg_base::Refusal;
use vg_core::{Member, Program};
use vg_live::{LiveSet, Reason};
use vg_shape::Store;

/// The live members of a program and of the heap that its constructors left, each with a reason.
///
/// Allocates is the first live method, in order of the text, in which a `new` stands, and the first of these by its node.
pub fn live(alloc: Global, program: &Program, heap: &Store) -> Result<LiveSet, Refusal<Allocates>>
    ensures { Reaches (program_at program.now) heap.now result }
{
    let set = closed(alloc, program, heap)?;
    let found = first_maker(alloc, program, &set)?;
    match found {
        Some(fault) => Err(Refusal::Fault(fault)),
        None => Ok(set),
    }
}

/// The reason that is kept for a member; none exactly where it is not live. It takes no memory.
pub fn why(live: &LiveSet, member: Member) -> Option<Reason>
    ensures kept { result ≡ reason_of live.now member }
    ensures dead { (p : programs.Program) (h : Heap) → IsLiveSet p h live.now → (result ≡ None) ↔ (Live p h (Some member) → ⊥) }
{
    live.reason(member)
}
