// The laws of runs that go on.
ghost use Rattle.std.specs.Prelude.{ℕ, ◌≡◌, ◌+◌, Some};
ghost use Rattle.vg_meaning.specs.Answer.{End};
ghost use Rattle.vg_lin.specs.Program.{Program};
ghost use Rattle.vg_lin.specs.State.{State};
ghost use Rattle.vg_lin.specs.Steps.{Config};
ghost use Rattle.vg_lin_traces.specs.Traces.{after, Extends};

/// Laws of runs. Steps come one behind the other; what was seen behind some steps goes on from what was seen before them; and a run that has ended stays
/// as it is. The body is empty: its contract is a law of the definitions.
pub fn runs_go_on()
    ensures parts { (p : Program) (n k : ℕ) (c : Config State) → after p (n + k) c ≡ after p k (after p n c) }
    ensures grows { (p : Program) (n : ℕ) (c : Config State) → Extends c.outside (after p n c).outside }
    ensures ended { (p : Program) (n : ℕ) (c : Config State) (why : End) → c.ending ≡ Some why → after p n c ≡ c }
{}
