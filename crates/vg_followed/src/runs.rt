// The laws of whole runs.
ghost use Rattle.std.specs.Prelude.{ℕ, ◌≡◌, ◌<◌, None};
ghost use Rattle.avr_isa.specs.Machine.{State as MachineState};
ghost use Rattle.vg_lin.specs.Program.{Program};
ghost use Rattle.vg_lin.specs.State.{State};
ghost use Rattle.vg_lin.specs.Steps.{Config};
ghost use Rattle.avr_view.specs.Run.{Run, Goes};
ghost use Rattle.vg_templates.specs.Whole.{Links};
ghost use Rattle.vg_followed.specs.Stands.{Stands};
ghost use Rattle.vg_followed.specs.Related.{Related};
ghost use Rattle.vg_followed.specs.Followed.{Owes, behind, IsDeep};

/// Laws of runs of so many steps. The machine comes to a state of the configuration behind them; where that one has not ended, in at least as many
/// instructions; or it reaches below the floor, which it does only where the bytes of the stack are too many before one of the steps.
pub fn runs_are_matched()
    ensures comes { (e : Run) (x : Links) (p : Program) → Stands e x p → (n : ℕ) (c : Config State) (s : MachineState)
        → ((j : ℕ) → j < n → Owes e p (behind p j c)) → Related e x p c s → Goes e (IsDeep e x p n c) 0 s (Related e x p (behind p n c)) }
    ensures goes_on { (e : Run) (x : Links) (p : Program) → Stands e x p → (n : ℕ) (c : Config State) (s : MachineState)
        → ((j : ℕ) → j < n → Owes e p (behind p j c)) → (behind p n c).ending ≡ None → Related e x p c s
        → Goes e (IsDeep e x p n c) n s (Related e x p (behind p n c)) }
{}
