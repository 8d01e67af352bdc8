// The laws of a typed program and the source program that it stands for.
ghost use Rattle.std.specs.Prelude.{◌≡◌, ℕ, List, Option};
ghost use Rattle.vg_meaning.specs.History.{Recorder};
ghost use Rattle.vg_meaning.specs.World.{World};
ghost use Rattle.vg_meaning.specs.Safe.{Alike};
ghost use Rattle.vg_source.specs.Steps.{Source};
ghost use Rattle.vg_source.specs.Session as source;
ghost use Rattle.vg_core.specs.declared.heap.Heap.{Heap};
ghost use Rattle.vg_core.specs.declared.program.Target.{Target};
ghost use Rattle.vg_core.specs.declared.value.CoreValue.{CoreValue};
ghost use Rattle.vg_core.specs.Meaning.{called};
ghost use Rattle.vg_core.specs.Naming.{Naming, named_value, named_heap, named_state, named_target, named};
ghost use Rattle.vg_core.specs.Program.{Program};
ghost use Rattle.vg_core.specs.Session.{starting, running, started, session};
ghost use Rattle.vg_core.specs.State.{State};
ghost use Rattle.vg_core.specs.Typing.{WellFormed, WellTyped};
ghost use Rattle.vg_sound.specs.Good.{HasTypedHeap};
ghost use Rattle.vg_renamed.specs.IsNamed.{IsNamed};
ghost use Rattle.vg_renamed.specs.NamesTell.{NamesTell};
ghost use Rattle.vg_renamed.specs.Stands.{AreSame, named_start};

/// A call does the same under numbers and under names, clock for clock and for every recorder of calls.
pub fn same_calls<H>()
    ensures { (n : Naming) (p : Program) (q : Source) → IsNamed n p q → WellFormed p.tables → (r : Recorder H) (k : ℕ)
        → (t : Target) (count : ℕ) (self : CoreValue) (s : State) (w : World H)
        → AreSame n p.tables (called r p k t count self s w)
        (source.called r q k (named_target n p.tables t) count (named_value n p.tables self) (named_state n p.tables s) w) }
{}

/// Initialisation does the same, and leaves the same heap up to names for numbers.
pub fn same_starts<H>()
    ensures { (n : Naming) (p : Program) (q : Source) → IsNamed n p q → WellFormed p.tables → (r : Recorder H) (history : H) (clock : ℕ)
        → AreSame n p.tables (starting r history p clock) (source.starting r history q clock) }
{}

/// A run does the same, from each heap.
pub fn same_runs<H>()
    ensures { (n : Naming) (p : Program) (q : Source) → IsNamed n p q → WellFormed p.tables
        → (r : Recorder H) (h : Heap) (history : H) (deepest : Option ℕ) (reads interrupts : List ℕ) (clock : ℕ)
        → AreSame n p.tables (running r history p h deepest reads interrupts clock)
        (source.running r history q (named_heap n p.tables h) deepest reads interrupts clock) }
{}

/// The initialisation and the runs of a well typed program end in the very world of its source program's, and for the same reason.
pub fn well_typed_runs_agree<H>()
    ensures starting { (n : Naming) (p : Program) (q : Source) → IsNamed n p q → WellTyped p → (r : Recorder H) (history : H) (clock : ℕ)
        → Alike (starting r history p clock) (source.starting r history q clock) }
    ensures running { (n : Naming) (p : Program) (q : Source) → IsNamed n p q → WellTyped p
        → (r : Recorder H) (h : Heap) → HasTypedHeap p.tables h → (history : H) (deepest : Option ℕ) (reads interrupts : List ℕ) (clock : ℕ)
        → Alike (running r history p h deepest reads interrupts clock)
        (source.running r history q (named_heap n p.tables h) deepest reads interrupts clock) }
{}

/// A well typed program and its source program are initialised alike, heap for heap up to names for numbers, and have the same sessions:
/// the same trace, the same ending, and the same method calls active behind each tick.
pub fn same_sessions()
    ensures started { (n : Naming) (p : Program) (q : Source) → IsNamed n p q → WellTyped p → (clock : ℕ)
        → named_start n p.tables (started p clock) ≡ source.started q clock }
    ensures session { (n : Naming) (p : Program) (q : Source) → IsNamed n p q → WellTyped p → (h : Heap) → HasTypedHeap p.tables h
        → (deepest : Option ℕ) (reads interrupts : List ℕ) (clock : ℕ)
        → session p h deepest reads interrupts clock ≡ source.session q (named_heap n p.tables h) deepest reads interrupts clock }
{}

/// Where names tell all numbers apart, the program with these names in place of its numbers is one in which the names find what the
/// numbers find.
pub fn names_in_place()
    ensures { (n : Naming) (p : Program) → NamesTell n p → IsNamed n p (named n p) }
{}
