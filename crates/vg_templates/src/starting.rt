// The law of the start of an image.
ghost use Rattle.std.specs.Prelude.{ℕ, ◌≢◌, ◌+◌, ◌<◌, ◌≤◌, List};
ghost use Rattle.vg_meaning.specs.Outside.{before, AreReads, AreVectors};
ghost use Rattle.avr_instr.specs.declared.instr.Instr.TheVariants.{Jmp};
ghost use Rattle.avr_isa.specs.Cpu.{PowerOn, IsPowerOn};
ghost use Rattle.avr_isa.specs.Machine.{started};
ghost use Rattle.avr_isa.specs.Standing.{widths, StandsAt, AllStandAt};
ghost use Rattle.avr_view.specs.Run.{Run, Goes};
ghost use Rattle.vg_templates.specs.Startup.{startup, Begun};

/// A law of the start of an image. From reset, where a jump leads to this code, the run comes behind it, whatever registers and SRAM held at power-on: the
/// stack is empty, r1 is 0, and the static area holds the bytes that stand in flash from this byte address on. No instruction on the way reaches below
/// the floor.
pub fn images_start()
    ensures { (e : Run) (start from : ℕ) (memory : PowerOn) (reads interrupts : List ℕ) → IsPowerOn memory → AreReads reads
        → AreVectors interrupts → StandsAt e.flash 0 (Jmp start) → start ≢ 0 → AllStandAt e.flash start (startup e.static from)
        → start + widths (startup e.static from) < 65536 → from + e.static < 65536 → e.floor ≤ 0x1100
        → Goes e ⊥ 5 (started memory reads interrupts)
        (Begun e from (before reads interrupts) (start + widths (startup e.static from))) }
{}
