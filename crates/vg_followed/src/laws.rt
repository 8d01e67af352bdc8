// The laws of the runs of images.
ghost use Rattle.std.specs.Prelude.{ℕ, ◌≡◌, List, None, Some};
ghost use Rattle.vg_meaning.specs.Answer.{End};
ghost use Rattle.vg_meaning.specs.Outside.{AreReads, AreVectors};
ghost use Rattle.avr_isa.specs.Cpu.{PowerOn, IsPowerOn};
ghost use Rattle.avr_isa.specs.Machine.{started};
ghost use Rattle.avr_view.specs.Run.{Run, Goes};
ghost use Rattle.avr_view.specs.View.{Shown};
ghost use Rattle.vg_lin.specs.Meaning.{run};
ghost use Rattle.vg_lin.specs.Program.{Program};
ghost use Rattle.vg_templates.specs.Whole.{Links};
ghost use Rattle.vg_followed.specs.Related.{HasEnded};
ghost use Rattle.vg_followed.specs.Stands.{Stands};
ghost use Rattle.vg_followed.specs.Runs.{Begins, IsDeepRun, Wholes};

/// Laws of images in whose flash a program of linear code stands. From reset, whatever registers and SRAM hold at power-on, the machine ends as the program
/// does, where it has ended behind so many steps; and where it goes on, the machine goes on as well, having shown the same, in at least as many
/// instructions; or its stack reaches below the floor, which it does only where its bytes are too many before one of these steps. The body is empty: its
/// contract is a law of the definitions.
pub fn images_do()
    ensures ends { (e : Run) (x : Links) (p : Program) → Stands e x p → Begins e x p → (n : ℕ) (memory : PowerOn) (reads interrupts : List ℕ)
        → IsPowerOn memory → AreReads reads → AreVectors interrupts → Wholes e p n reads interrupts → (why : End)
        → (run p n reads interrupts).ending ≡ Some why
        → Goes e (IsDeepRun e x p n reads interrupts) 0 (started memory reads interrupts) (HasEnded e why (run p n reads interrupts).outside) }
    ensures goes_on { (e : Run) (x : Links) (p : Program) → Stands e x p → Begins e x p → (n : ℕ) (memory : PowerOn) (reads interrupts : List ℕ)
        → IsPowerOn memory → AreReads reads → AreVectors interrupts → Wholes e p n reads interrupts → (run p n reads interrupts).ending ≡ None
        → Goes e (IsDeepRun e x p n reads interrupts) n (started memory reads interrupts) (Shown e (run p n reads interrupts).outside.trace) }
{}
