// The law of the ticks of calls.
ghost use Rattle.std.specs.Prelude.{ℕ, ◌≡◌};
ghost use Rattle.vg_meaning.specs.Answer.{Signal, Ends};
ghost use Rattle.vg_meaning.specs.History.{full, History};
ghost use Rattle.vg_meaning.specs.World.{World};
ghost use Rattle.vg_codes.specs.Codes.{Codes};
ghost use Rattle.vg_firm.specs.Program.{Program};
ghost use Rattle.vg_firm.specs.Meaning.{State};
ghost use Rattle.vg_firm.specs.Session.{running};
ghost use Rattle.vg_ticked_calls.specs.Ticked.{AreTicked};

/// A law of runs of packed programs: where what was open at each opening was open behind a tick, it is so behind the run as well. The body is empty: its
/// contract is a law of the definitions.
pub fn openings_tick()
    ensures { (k : Codes) (f : Program) (n : ℕ) (s t : State) (w v : World History) (why : Signal) → AreTicked w.history
        → running full k f n s w ≡ Ends why t v → AreTicked v.history }
{}
