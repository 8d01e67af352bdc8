// Procedures that wait.
ghost use Rattle.std.specs.Prelude.{◌≡◌, ◌<◌, ◌-◌, ◌^◌, suc};
ghost use Rattle.vg_lin.specs.Meaning.{resume};
ghost use Rattle.vg_lin_machine.specs.Machines.{awaits_of};

use std::marker::Model;
use std::mem;
use vg_lin::Call;
use vg_lin_states::LinState;

/// What waits for the end of a procedure.
#[derive(Clone, Copy)]
pub enum Awaits {
    /// A call, for its result.
    Result(Call),
    /// An instruction that idles.
    Interrupt,
}

/// A procedure that waits: the place where it waits, and its state.
#[derive(Drop)]
pub struct Frame {
    proc: usize,
    pc: usize,
    kept: LinState,
    awaits: Awaits,
}

impl Model for Frame {
    ghost use Rattle.std.specs.Prelude.{◌<◌, ◌-◌, ◌^◌};
    ghost use Rattle.vg_lin.specs.State.{State};
    ghost use Rattle.vg_lin.specs.Steps.{Frame as Waits};
    ghost use Rattle.vg_lin_machine.specs.Machines.{awaits_of};

    ghost Value = { Waits State };

    ghost view = { λ f. record { proc = f.proc; pc = f.pc; kept = f.kept; awaits = awaits_of f.awaits } };

    ghost invariant = { λ f. f.pc < 2 ^ 64 - 1 };
}

impl Frame {
    /// A procedure that waits at a place, by its number.
    pub fn new(proc: usize, pc: usize, kept: LinState, awaits: Awaits) -> Self
        requires { pc < 2 ^ 64 - 1 }
        ensures { result ≡ record { proc = proc; pc = pc; kept = kept; awaits = awaits_of awaits } }
    {
        Frame {
            proc,
            pc,
            kept,
            awaits,
        }
    }

    /// The number of the procedure.
    pub fn proc(&self) -> usize
        ensures { result ≡ self.now.proc }
    {
        self.proc
    }

    /// Goes on behind the place where it waits, with the result of the procedure that returns in this state, which becomes its own. The
    /// answer is its number and that place.
    pub fn go_on(self, state: &mut LinState, value: u32) -> (usize, usize)
        ensures proc { result.0 ≡ self.proc }
        ensures pc { result.1 ≡ suc self.pc }
        ensures state { state.new ≡ resume self.awaits self.kept state.old value }
    {
        let Frame {
            proc,
            pc,
            kept,
            awaits,
        } = self;
        let returned = mem::replace(state, kept);
        state.take_ram_of(returned);
        take_result(awaits, state, value);
        (proc, pc + 1)
    }
}

// The result goes to the local that a call names.
fn take_result(awaits: Awaits, state: &mut LinState, value: u32)
    ensures { state.new ≡ resume (awaits_of awaits) state.old state.old value }
{
    match awaits {
        Awaits::Result(call) => match call.to {
            Some(target) => state.set(target.local, value),
            None => {}
        },
        Awaits::Interrupt => {}
    }
}
