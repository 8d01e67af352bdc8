// The law of walks.
ghost use Rattle.std.specs.Prelude.{ℕ, ◌≡◌, []};
ghost use Rattle.vg_meaning.specs.Answer.{Signal, Ends};
ghost use Rattle.vg_meaning.specs.History.{History, full};
ghost use Rattle.vg_meaning.specs.World.{World};
ghost use Rattle.vg_codes.specs.Codes.{Codes};
ghost use Rattle.vg_firm.specs.Meaning.{State};
ghost use Rattle.vg_firm.specs.Program.{Program};
ghost use Rattle.vg_firm.specs.Session.{running};
ghost use Rattle.vg_walks.specs.Walks.{AreAwake, AreWalks};

/// A law of packed programs whose procedures do not idle: the calls that were active behind a tick are a walk, that is, each call but the oldest lies on one
/// of a procedure that names its own among those that it may call, and the oldest is of main or of a handler. The body is empty: its contract is a law of the
/// definitions.
pub fn active_calls_are_walks()
    ensures { (k : Codes) (f : Program) → AreAwake f → (n : ℕ) (s t : State) (w v : World History) (why : Signal) → w.history.active ≡ []
        → AreWalks f w.history.behind_ticks → running full k f n s w ≡ Ends why t v → AreWalks f v.history.behind_ticks }
{}
