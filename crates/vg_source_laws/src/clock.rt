// Laws of the clock.
ghost use Rattle.std.specs.Prelude.{◌≡◌, ◌≢◌, ℕ, ◌+◌, List, Option, Some};
ghost use Rattle.vg_meaning.specs.Ending.{Beyond};
ghost use Rattle.vg_meaning.specs.History.{Recorder};
ghost use Rattle.vg_meaning_laws.specs.Grows.{Extends};
ghost use Rattle.vg_meaning_laws.specs.Spent.{Spent};
ghost use Rattle.vg_source.specs.Values.{Heap};
ghost use Rattle.vg_source.specs.Steps.{Source};
ghost use Rattle.vg_source.specs.Session.{Started, started, session, starting, running};

/// Two clocks that both give a heap give the same heap, and with more clock than one that gives a heap there is that heap.
pub fn one_heap()
    ensures more { (p : Source) (clock d : ℕ) (h : Heap) → started p clock ≡ Started h → started p (clock + d) ≡ Started h }
    ensures same { (p : Source) (c d : ℕ) (h k : Heap) → started p c ≡ Started h → started p d ≡ Started k → h ≡ k }
{}

/// With more clock a session's trace begins with that of the shorter one; and one that ended otherwise than by the clock is
/// the same, with its trace, its ending and its history.
pub fn more_clock()
    ensures trace { (p : Source) (heap : Heap) (deepest : Option ℕ) (reads interrupts : List ℕ) (clock d : ℕ)
        → Extends (session p heap deepest reads interrupts clock).trace (session p heap deepest reads interrupts (clock + d)).trace }
    ensures same { (p : Source) (heap : Heap) (deepest : Option ℕ) (reads interrupts : List ℕ) (clock d : ℕ)
        → (session p heap deepest reads interrupts clock).ending ≢ Some Beyond
        → session p heap deepest reads interrupts (clock + d) ≡ session p heap deepest reads interrupts clock }
{}

/// The clock never rises, and a session or an initialisation that is out of clock has spent it all.
pub fn spent_clock<H>()
    ensures starting { (r : Recorder H) (history : H) (p : Source) (clock : ℕ) → Spent clock (starting r history p clock) }
    ensures running { (r : Recorder H) (history : H) (p : Source) (heap : Heap) (deepest : Option ℕ) (reads interrupts : List ℕ) (clock : ℕ)
        → Spent clock (running r history p heap deepest reads interrupts clock) }
{}
