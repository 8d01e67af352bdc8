// Laws of histories.
ghost use Rattle.std.specs.Prelude.{ℕ, List, Option};
ghost use Rattle.vg_meaning.specs.History.{Recorder};
ghost use Rattle.vg_meaning_laws.specs.Told.{Told, Tells};
ghost use Rattle.vg_source.specs.Values.{Heap};
ghost use Rattle.vg_source.specs.Steps.{Source};
ghost use Rattle.vg_source.specs.Session.{starting, running};

/// A program does with a recorder that keeps less what it does with one that keeps more: an interpreter may keep the depth
/// of calls alone.
pub fn any_recorder<H, K>()
    ensures starting { (f : H → K) (r : Recorder H) (q : Recorder K) → Tells f r q → (history : H) (p : Source) (clock : ℕ)
        → Told f (starting r history p clock) (starting q (f history) p clock) }
    ensures running { (f : H → K) (r : Recorder H) (q : Recorder K) → Tells f r q
        → (history : H) (p : Source) (heap : Heap) (deepest : Option ℕ) (reads interrupts : List ℕ) (clock : ℕ)
        → Told f (running r history p heap deepest reads interrupts clock) (running q (f history) p heap deepest reads interrupts clock) }
{}
