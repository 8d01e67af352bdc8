// Initialisation.
ghost use Rattle.std.specs.Prelude.{IfOk};
ghost use Rattle.vg_core.specs.HeldProgram.{program_at};
ghost use Rattle.vg_core.specs.Session.{started};
ghost use Rattle.vg_core.specs.Typing.{WellTyped};
ghost use Rattle.vg_sound.specs.Good.{HasTypedHeap};
ghost use Rattle.vg_session.specs.Initialises.{Initialises};
ghost use Rattle.vg_session.specs.Playing.{CanFail, FailsBy};

use std::alloc::Global;
use vg_base::{NodeId, Refusal};
use vg_core::Program;
use vg_interp_run::Signal;
use vg_shape::Store;

/// Why a program has no initialised heap.
#[derive(Clone, Copy, Debug, PartialEq, Eq)]
pub enum InitFault {
    /// An exception of this code, at the node of the tree with this number.
    Trap { code: u8, node: NodeId },
    /// A tick was due, and the clock was spent.
    Steps,
    /// A 401st call was opened.
    Depth,
    /// The device register at this address was read or written.
    Touches(u8),
    /// A 60,001st value was to be stored.
    TooBig,
}

/// Initialises a program in at most so many ticks: the heap that its constructors leave.
pub fn init(alloc: Global, program: &Program, steps: u32) -> Result<Store, Refusal<InitFault>>
    requires { WellTyped (program_at program.now) }
    ensures gives { Initialises result (started (program_at program.now) steps) }
    ensures typed { IfOk result (λ heap. HasTypedHeap program.now.tables heap) }
{
    match vg_interp_sessions::init(alloc, program, steps) {
        Ok(store) => Ok(store),
        Err(why) => Err(refusal_of(why)),
    }
}

// What initialisation answers at a signal of its run.
fn refusal_of(why: Signal) -> Refusal<InitFault>
    requires { CanFail why }
    ensures { FailsBy result why }
{
    match why {
        Signal::Stops(code, at) => Refusal::Fault(InitFault::Trap {
            code,
            node: NodeId(at),
        }),
        Signal::OutOfClock => Refusal::Fault(InitFault::Steps),
        Signal::OutOfDepth => Refusal::Fault(InitFault::Depth),
        Signal::Touches(address) => Refusal::Fault(InitFault::Touches(address)),
        Signal::OutOfRoom => Refusal::Fault(InitFault::TooBig),
        Signal::NoMemory => Refusal::NoMemory,
        Signal::Break
        | Signal::Continue
        | Signal::Return
        | Signal::Wants(_)
        | Signal::Done
        | Signal::Wrong => unreachable!(),
    }
}
