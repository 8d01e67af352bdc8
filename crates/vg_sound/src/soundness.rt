// The laws of well typed programs.
ghost use Rattle.std.specs.Prelude.{◌≡◌, ℕ, List, Option, map};
ghost use Rattle.vg_meaning.specs.History.{Recorder};
ghost use Rattle.vg_meaning.specs.Safe.{Safe, NoWay, IsRight};
ghost use Rattle.vg_core.specs.declared.heap.Heap.{Heap};
ghost use Rattle.vg_core.specs.declared.program.Owner.{Owner};
ghost use Rattle.vg_core.specs.declared.program.Tables.{Tables};
ghost use Rattle.vg_core.specs.declared.step.Step.{Step};
ghost use Rattle.vg_core.specs.declared.types.CoreType.{CoreType};
ghost use Rattle.vg_core.specs.Heap.{Kind, kind_of};
ghost use Rattle.vg_core.specs.Meaning.{Caller, step, called};
ghost use Rattle.vg_core.specs.Program.{Program};
ghost use Rattle.vg_core.specs.Session.{first_heap, starting, running};
ghost use Rattle.vg_core.specs.Typing.{Takes, WellFormed, WellTyped};
ghost use Rattle.vg_sound.specs.Good.{TypedHeap, Leads, CallsRight, HasTypedHeap, HoldsTypedHeap};

/// Where calls are never Wrong no step is, and it leads from the types that wait before it to those behind it.
pub fn right_steps<H>()
    ensures { (p : Tables) → WellFormed p → (call : Caller H) → CallsRight p call
        → (κ0 : List Kind) (ts : List CoreType) (o : Owner) (st : Step) (x y : List CoreType) → Takes p ts o st x y
        → Leads p κ0 ts o x y (step p call st) }
{}

/// No call is Wrong, with any clock and any recorder of calls.
pub fn right_calls<H>()
    ensures { (r : Recorder H) (p : Program) → WellTyped p → (n : ℕ) → CallsRight p.tables (called r p n) }
{}

/// The heap before initialisation is typed; initialisation is never Wrong, and leaves a typed heap.
pub fn right_starts<H>()
    ensures first { (p : Program) → WellTyped p → HasTypedHeap p.tables (first_heap p) }
    ensures starting { (r : Recorder H) (p : Program) → WellTyped p → (history : H) (clock : ℕ)
        → Safe (HoldsTypedHeap p.tables) NoWay IsRight (starting r history p clock) }
{}

/// A run from a typed heap is never Wrong.
pub fn right_runs<H>()
    ensures { (r : Recorder H) (p : Program) → WellTyped p → (h : Heap) → HasTypedHeap p.tables h
        → (history : H) (deepest : Option ℕ) (reads interrupts : List ℕ) (clock : ℕ)
        → Safe (HoldsTypedHeap p.tables) NoWay IsRight (running r history p h deepest reads interrupts clock) }
{}

/// The kinds by which a heap is typed are those of its cells.
pub fn kinds_of_cells()
    ensures { (p : Tables) (κ : List Kind) (h : Heap) → TypedHeap p κ h → κ ≡ map kind_of h.cells }
{}
