// The calls that are opened.
ghost use Rattle.std.specs.Prelude.{ℕ, List};
ghost use Rattle.vg_meaning.specs.History.{no_history, full};
ghost use Rattle.vg_meaning.specs.Safe.{Safe};
ghost use Rattle.vg_toy.specs.Language.{Method};
ghost use Rattle.vg_toy.specs.Session.{session};
ghost use Rattle.vg_toy.specs.Openings.{OpensMethods};

/// However a run goes on, leaves or ends, at each opening all active calls were calls of methods that the program has.
pub fn calls_are_of_methods()
    ensures { (find : ℕ → ℕ) (methods : List Method) (reads interrupts : List ℕ) (clock : ℕ)
        → Safe {S = List ℕ} (λ s h. OpensMethods methods h) (λ why s h. OpensMethods methods h) (λ why h. OpensMethods methods h)
        (session full no_history find methods reads interrupts clock) }
{}
