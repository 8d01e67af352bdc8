// The laws of stacks and peaks.
ghost use Rattle.std.specs.Prelude.{ℕ, ◌≡◌, ◌+◌, ◌≤◌, List, length, Option};
ghost use Rattle.vg_meaning.specs.Answer.{End, Over, Ends};
ghost use Rattle.vg_meaning.specs.History.{full, History};
ghost use Rattle.vg_meaning.specs.Outside.{AreReads, AreVectors};
ghost use Rattle.vg_meaning.specs.World.{World};
ghost use Rattle.vg_codes.specs.Codes.{Codes};
ghost use Rattle.vg_firm.specs.Program.{Program as FirmProgram};
ghost use Rattle.vg_firm.specs.Meaning.{State as Firm};
ghost use Rattle.vg_firm.specs.Session.{first_state, running};
ghost use Rattle.avr_isa.specs.Cpu.{PowerOn, IsPowerOn};
ghost use Rattle.avr_view.specs.Run.{Run};
ghost use Rattle.vg_lin.specs.Follows.{IsLegal};
ghost use Rattle.vg_lin.specs.Program.{Program};
ghost use Rattle.vg_lin.specs.Sessions.{world};
ghost use Rattle.vg_trimming.specs.Runs.{RunsAsRead};
ghost use Rattle.vg_flatten_shapes.specs.declared.layout.Layout.{Layout};
ghost use Rattle.vg_flatten.specs.Flattened.{AreFlat};
ghost use Rattle.vg_templates.specs.Whole.{Links};
ghost use Rattle.vg_followed.specs.Stands.{Stands};
ghost use Rattle.vg_followed.specs.Runs.{Begins};
ghost use Rattle.vg_deep_costs.specs.Fit.{HasFitFrames};
ghost use Rattle.vg_peaks.specs.Peaks.{DoesWithinPeak};

/// A law of images of packed programs whose frames fit, by costs of methods and so many bytes beside them. Where a run of the packed program is over for a
/// legal reason, the machine ends from reset on for the same reason and with the same outside; where only ticks were spent, or too many calls were active, the
/// machine has shown the same and goes on, after at least as many instructions as ticks; or its stack reaches below the floor, which it does only where the
/// peak of the run passes the stack. The body is empty: its contract is a law of the definitions.
pub fn images_within_peak()
    ensures { (k : Codes) (lay : Layout) (f : FirmProgram) (p new : Program) → AreFlat k lay f p → RunsAsRead p new → (e : Run) (x : Links) → Stands e x new
        → Begins e x new → (extra : ℕ) (costs : List ℕ) → HasFitFrames x new extra costs → (memory : PowerOn) → IsPowerOn memory
        → (clock : ℕ) (deepest : Option ℕ) (reads interrupts : List ℕ) (t : Firm) (v : World History) (why : End)
        → AreReads reads → AreVectors interrupts → IsLegal why
        → running full k f (length interrupts) (first_state f) (world clock deepest reads interrupts) ≡ Ends (Over why) t v → e.whole ≡ v.outside.trace
        → (n : ℕ) × (clock ≤ v.clock + n) × DoesWithinPeak e extra costs n memory reads interrupts why v }
{}
