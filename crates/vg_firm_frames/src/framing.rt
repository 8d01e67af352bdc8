// The law that a step leaves alone what waits below its own values.
ghost use Rattle.std.specs.Prelude.{ℕ, ◌≤◌, List, length};
ghost use Rattle.vg_meaning.specs.World.{World};
ghost use Rattle.vg_meaning.specs.History.{History, full};
ghost use Rattle.vg_codes.specs.Codes.{Codes};
ghost use Rattle.vg_firm.specs.declared.step.Step.{Step};
ghost use Rattle.vg_firm.specs.Program.{Procedure, Program};
ghost use Rattle.vg_firm.specs.Meaning.{State, step};
ghost use Rattle.vg_firm.specs.Session.{called, guarded, handled};
ghost use Rattle.vg_firm_typed.specs.Steps.{takes};
ghost use Rattle.vg_firm_frames.specs.Frames.{over, Above};

/// A step does the same where more values wait below those that it takes, and leaves them there.
pub fn what_waits_below_stays()
    ensures { (k : Codes) (f : Program) (m : Procedure) (n : ℕ) (under : List ℕ) (p : Step) (s : State) (w : World History) → takes p ≤ length s.values
        → Above under (step k f m (guarded m.calls (called full k f n)) (λ vector. handled (called full k f n) (f.handler vector)) p s w)
        (step k f m (guarded m.calls (called full k f n)) (λ vector. handled (called full k f n) (f.handler vector)) p (over under s) w) }
{}
