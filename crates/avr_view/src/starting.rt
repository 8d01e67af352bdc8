// The law of the first instructions behind reset.
ghost use Rattle.std.specs.Prelude.{ℕ, ◌≢◌, ◌+◌, ◌<◌, ◌≤◌, List};
ghost use Rattle.vg_meaning.specs.Outside.{before, AreReads, AreVectors};
ghost use Rattle.avr_instr.specs.declared.instr.Instr.TheVariants.{Jmp};
ghost use Rattle.avr_isa.specs.Cpu.{PowerOn, IsPowerOn};
ghost use Rattle.avr_isa.specs.Machine.{started};
ghost use Rattle.avr_isa.specs.Standing.{StandsAt, AllStandAt};
ghost use Rattle.avr_view.specs.Run.{Run, Goes};
ghost use Rattle.avr_view.specs.Start.{start_code, Started};

/// A law of the start: from reset, whatever the chip holds at power-on, a JMP leads to the code that sets SP, and behind it the stack is empty and
/// the static area is the front of SRAM.
pub fn starts()
    ensures { (e : Run) (start d : ℕ) (memory : PowerOn) (reads interrupts : List ℕ) → IsPowerOn memory → AreReads reads → AreVectors interrupts
        → StandsAt e.flash 0 (Jmp start) → start ≢ 0 → AllStandAt e.flash start (start_code d) → start + 4 < 65536 → e.floor ≤ 0x1100
        → Goes e ⊥ 5 (started memory reads interrupts) (Started e memory (before reads interrupts) (start + 4)) }
{}
