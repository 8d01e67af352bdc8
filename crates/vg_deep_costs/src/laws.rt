// The law of what deep runs cost.
ghost use Rattle.std.specs.Prelude.{ℕ, ◌≡◌, ◌+◌, ◌<◌, List, Some};
ghost use Rattle.vg_meaning.specs.Answer.{Wrong};
ghost use Rattle.vg_source.specs.Peak.{most};
ghost use Rattle.avr_view.specs.Run.{Run};
ghost use Rattle.vg_lin.specs.Meaning.{run};
ghost use Rattle.vg_lin.specs.Program.{Program};
ghost use Rattle.vg_templates.specs.Whole.{Links};
ghost use Rattle.vg_followed.specs.Stands.{Stands};
ghost use Rattle.vg_followed.specs.Runs.{Begins, IsDeepRun};
ghost use Rattle.vg_open_costs.specs.Taken.{EndsUnpushed};
ghost use Rattle.vg_deep_costs.specs.Fit.{HasFitFrames};

/// A law of runs that do not end within a row of pushes and whose stack is too deep, in images of programs whose frames fit, by costs of methods and so many
/// bytes beside them: calls that were active at an opening cost more than the stack, but for these bytes. The body is empty: its contract is a law of the
/// definitions.
pub fn deep_runs_cost()
    ensures { (e : Run) (x : Links) (p : Program) (extra : ℕ) (costs : List ℕ) → Stands e x p → Begins e x p → HasFitFrames x p extra costs
        → (n : ℕ) (reads interrupts : List ℕ) → EndsUnpushed p n reads interrupts → ((run p n reads interrupts).ending ≡ Some Wrong → ⊥)
        → IsDeepRun e x p n reads interrupts → 0x1100 < e.floor + (extra + most costs (run p n reads interrupts).openings) }
{}
