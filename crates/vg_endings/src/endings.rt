// The laws of endings.
ghost use Rattle.std.specs.Prelude.{◌≡◌, ◌≢◌, ℕ, List, Option, Some, None};
ghost use Rattle.vg_meaning.specs.Ending.{Deep};
ghost use Rattle.vg_meaning.specs.History.{Recorder};
ghost use Rattle.vg_source.specs.Steps.{Source};
ghost use Rattle.vg_source.specs.Values.{Heap};
ghost use Rattle.vg_source.specs.Session.{Started, started, session, running};
ghost use Rattle.vg_core.specs.Naming.{Naming};
ghost use Rattle.vg_core.specs.Program.{Program};
ghost use Rattle.vg_core.specs.Typing.{WellTyped};
ghost use Rattle.vg_renamed.specs.IsNamed.{IsNamed};
ghost use Rattle.vg_endings.specs.InRun.{EndsRun};

/// Each run of a source program ends, touches no device at a wrong time and wants no room, and is too deep only where active calls are
/// limited. The body is empty: its contract is a law of the definitions.
#[tactic(auto, using(crate::proofs::Ending::ends_running))]
pub fn runs_end<H>()
    ensures { (r : Recorder H) (history : H) (p : Source) (heap : Heap) (deepest : Option ℕ) (reads interrupts : List ℕ) (clock : ℕ)
        → EndsRun deepest (running r history p heap deepest reads interrupts clock) }
{}

/// Where a well typed program stands for a source program and this one is initialised, each of its sessions has an ending, and without a
/// limit on active calls none is too deep. The body is empty: its contract is a law of the definitions.
pub fn each_session_ends()
    ensures ends { (n : Naming) (p : Program) (q : Source) → IsNamed n p q → WellTyped p → (c : ℕ) (heap : Heap) → started q c ≡ Started heap
        → (deepest : Option ℕ) (reads interrupts : List ℕ) (clock : ℕ) → (session q heap deepest reads interrupts clock).ending ≢ None }
    ensures not_deep { (n : Naming) (p : Program) (q : Source) → IsNamed n p q → WellTyped p → (c : ℕ) (heap : Heap) → started q c ≡ Started heap
        → (reads interrupts : List ℕ) (clock : ℕ) → (session q heap None reads interrupts clock).ending ≢ Some Deep }
{}
