// Laws of casts between classes.
ghost use Rattle.std.specs.Prelude.{◌≡◌, ℕ, true, Some};
ghost use Rattle.vg_meaning.specs.World.{World};
ghost use Rattle.vg_meaning.specs.Answer.{Gives};
ghost use Rattle.vg_source.specs.Names.{Name};
ghost use Rattle.vg_source.specs.Types.{ClassType};
ghost use Rattle.vg_source.specs.Values.{Null, Obj};
ghost use Rattle.vg_source.specs.Steps.{Source};
ghost use Rattle.vg_source.specs.State.{State, class_at, is_below};
ghost use Rattle.vg_source.specs.Meaning.{put, do_cast};

/// Null passes every class cast, and an object passes the cast to its class or to one above it.
pub fn casts_that_pass<H>()
    ensures null { (p : Source) (at : ℕ) (d : Name) (s : State) (w : World H) → do_cast p at (ClassType d) Null s w ≡ put Null s w }
    ensures above { (p : Source) (at k : ℕ) (c d : Name) (s : State) (w : World H)
        → class_at s.heap k ≡ Some c → is_below p c d ≡ true
        → do_cast p at (ClassType d) (Obj k) s w ≡ put (Obj k) s w }
{}
