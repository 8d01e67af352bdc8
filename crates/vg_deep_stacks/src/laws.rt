// The law of stacks that are too deep.
ghost use Rattle.std.specs.Prelude.{ℕ, ◌≤◌, List};
ghost use Rattle.avr_view.specs.Run.{Run};
ghost use Rattle.vg_lin.specs.Meaning.{at_start, run};
ghost use Rattle.vg_lin.specs.Program.{Program};
ghost use Rattle.vg_meaning.specs.Outside.{before};
ghost use Rattle.vg_templates.specs.Whole.{Links};
ghost use Rattle.vg_followed.specs.Runs.{IsDeepRun};
ghost use Rattle.vg_deep_stacks.specs.Passing.{AreSound, WaitAtMost, PassesStack};

/// A law of runs whose stack is too deep. Where the procedures of a program are sound, and behind each of so many steps so many bytes at most wait in each
/// open procedure, the stack is too deep only where the frames of the open procedures, with the most that may wait in each, take too many bytes behind one
/// of these steps. The body is empty: its contract is a law of the definitions.
pub fn deep_runs_pass()
    ensures { (e : Run) (x : Links) (p : Program) (most : ℕ → ℕ) (n : ℕ) (reads interrupts : List ℕ) → AreSound p
        → ((j : ℕ) → j ≤ n → WaitAtMost most (run p j reads interrupts)) → IsDeepRun e x p n reads interrupts
        → PassesStack e x p most n (at_start p (before reads interrupts)) }
{}
