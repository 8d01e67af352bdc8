// The law of the begin of an image's run.
ghost use Rattle.std.specs.Prelude.{ℕ, ◌≡◌, ◌≢◌, ◌+◌, ◌<◌, ◌≤◌, List, length, Some, slice_get};
ghost use Rattle.vg_meaning.specs.Outside.{before, AreReads, AreVectors};
ghost use Rattle.avr_instr.specs.declared.instr.Instr.TheVariants.{Jmp};
ghost use Rattle.avr_isa.specs.Cpu.{PowerOn, IsPowerOn};
ghost use Rattle.avr_isa.specs.Machine.{started};
ghost use Rattle.avr_isa.specs.Standing.{widths, StandsAt, AllStandAt};
ghost use Rattle.avr_view.specs.Run.{Run, Goes};
ghost use Rattle.vg_lin.specs.Meaning.{at_start};
ghost use Rattle.vg_lin.specs.Program.{Procedure, Program};
ghost use Rattle.vg_templates.specs.Startup.{bytes_from};
ghost use Rattle.vg_templates.specs.Whole.{Links};
ghost use Rattle.vg_followed.specs.Related.{Related};
ghost use Rattle.vg_followed.specs.Stands.{Stands};
ghost use Rattle.vg_followed.specs.Reset.{reset_code};

/// A law of the begin of a run. Where the code of a program stands in flash, the first procedure right behind the code of reset, and the bytes in flash are
/// those with which its columns in RAM begin, the machine comes from reset to a state of the configuration in which a run of linear code begins, whatever
/// registers and SRAM held at power-on; or its stack reaches below the floor, which it does only where a return address, the saved registers and the slots of
/// the first procedure are too many.
pub fn images_begin()
    ensures { (e : Run) (x : Links) (p : Program) → Stands e x p → (m : Procedure) → slice_get p.procedures p.start ≡ Some m → m.params ≡ 0
        → (start from : ℕ) (memory : PowerOn) (reads interrupts : List ℕ) → IsPowerOn memory → AreReads reads → AreVectors interrupts
        → StandsAt e.flash 0 (Jmp start) → start ≢ 0 → AllStandAt e.flash start (reset_code e.static from)
        → x.entry p.start ≡ start + widths (reset_code e.static from) → start + widths (reset_code e.static from) < 65536 → from + e.static < 65536
        → e.floor ≤ 0x1100 → bytes_from e.flash from e.static ≡ p.ram
        → Goes e (0x1100 < e.floor + 2 + length (x.places.layouts p.start).saved + (x.places.layouts p.start).slots) 6 (started memory reads interrupts)
        (Related e x p (at_start p (before reads interrupts))) }
{}
