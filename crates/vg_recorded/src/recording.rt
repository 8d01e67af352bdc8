// Laws of histories and of endings.
ghost use Rattle.std.specs.Prelude.{ℕ, List, Option};
ghost use Rattle.vg_meaning.specs.History.{Recorder};
ghost use Rattle.vg_meaning.specs.Code.{Code, performed};
ghost use Rattle.vg_meaning_laws.specs.Grows.{Grows};
ghost use Rattle.vg_meaning.specs.Interrupts.{idles};
ghost use Rattle.vg_meaning_laws.specs.Told.{Told, Tells};
ghost use Rattle.vg_core.specs.declared.heap.Heap.{Heap};
ghost use Rattle.vg_core.specs.declared.program.Target.{Target};
ghost use Rattle.vg_core.specs.declared.step.Step.{Step};
ghost use Rattle.vg_core.specs.declared.value.CoreValue.{CoreValue};
ghost use Rattle.vg_core.specs.Meaning.{called, step, truth};
ghost use Rattle.vg_core.specs.Program.{Program};
ghost use Rattle.vg_core.specs.Session.{call_alone, handle, starting, running};
ghost use Rattle.vg_recorded.specs.Setting.{EndsRun, EndsStart};

/// A program does with a recorder that keeps less what it does with one that keeps more. The body is empty: its contract is a law of the
/// definitions, as are those below.
pub fn any_recorder<H, K>()
    ensures starting { (f : H → K) (r : Recorder H) (q : Recorder K) → Tells f r q → (history : H) (p : Program) (clock : ℕ)
        → Told f (starting r history p clock) (starting q (f history) p clock) }
    ensures running { (f : H → K) (r : Recorder H) (q : Recorder K) → Tells f r q
        → (history : H) (p : Program) (heap : Heap) (deepest : Option ℕ) (reads interrupts : List ℕ) (clock : ℕ)
        → Told f (running r history p heap deepest reads interrupts clock) (running q (f history) p heap deepest reads interrupts clock) }
{}

/// Initialisation ends as such: it wants no read, and does not idle.
pub fn starts_end<H>()
    ensures { (r : Recorder H) (history : H) (p : Program) (clock : ℕ) → EndsStart (starting r history p clock) }
{}

/// Each run ends: it touches no device at a wrong time, wants no room, and is too deep only where active calls are limited.
pub fn runs_end<H>()
    ensures { (r : Recorder H) (history : H) (p : Program) (heap : Heap) (deepest : Option ℕ) (reads interrupts : List ℕ) (clock : ℕ)
        → EndsRun deepest (running r history p heap deepest reads interrupts clock) }
{}

/// Code, calls and the idle loop only add to the trace.
pub fn traces_grow<H>()
    ensures code { (r : Recorder H) (p : Program) (n : ℕ) (c : Code Step) → Grows (performed r (step p.tables (called r p n)) truth c) }
    ensures called { (r : Recorder H) (p : Program) (n : ℕ) (t : Target) (count : ℕ) (self : CoreValue) → Grows (called r p n t count self) }
    ensures calls { (r : Recorder H) (p : Program) (t : Target) → Grows (call_alone r p t) }
    ensures idle { (r : Recorder H) (p : Program) (n : ℕ) → Grows (idles n (handle r p)) }
{}
