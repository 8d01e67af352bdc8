// The laws of machines that hold bytes.
ghost use Rattle.std.specs.Prelude.{ℕ, ◌<◌, List};
ghost use Rattle.std.specs.List.{AllByRecursion};
ghost use Rattle.vg_meaning.specs.Outside.{AreReads, AreVectors};
ghost use Rattle.avr_instr.specs.declared.instr.Instr.{Instr};
ghost use Rattle.avr_instr.specs.Spelled.{InRange};
ghost use Rattle.avr_isa.specs.Cpu.{CpuState, PowerOn, IsPowerOn};
ghost use Rattle.avr_isa.specs.Effect.{change};
ghost use Rattle.avr_isa.specs.Machine.{State, started, run_from};
ghost use Rattle.avr_isa.specs.Standing.{StandsAt};
ghost use Rattle.avr_bytes.specs.Bytes.{IsFlash, HasBytes, HoldsBytes};

/// A law of all instructions: on a flash of bytes, an instruction whose operands are in range makes a processor with bytes of one with bytes.
/// The body is empty: its contract is a law of the definitions, as those below.
pub fn instructions_keep_bytes()
    ensures { (flash : List ℕ) (cpu : CpuState) (i : Instr) → IsFlash flash → InRange i → HasBytes cpu → HasBytes (change flash i cpu).cpu }
{}

/// Laws of runs: the machine at reset holds bytes, and what holds bytes does so behind every number of instructions, where the reads to come
/// are bytes and the interrupts to come have vectors of the chip.
pub fn runs_keep_bytes()
    ensures reset { (memory : PowerOn) (reads interrupts : List ℕ) → IsPowerOn memory → AreReads reads → AreVectors interrupts
        → HoldsBytes (started memory reads interrupts) }
    ensures runs { (flash : List ℕ) (n : ℕ) (s : State) → IsFlash flash → HoldsBytes s → HoldsBytes (run_from flash n s) }
{}

/// A law: an image of bytes is a flash of bytes, with the erased flash behind its end.
pub fn images_are_flash()
    ensures { (image : List ℕ) → AllByRecursion (λ b. b < 256) image → IsFlash image }
{}

/// A law: what a flash of bytes spells at a word address has its operands in range.
pub fn code_in_range()
    ensures { (flash : List ℕ) (pc : ℕ) (i : Instr) → IsFlash flash → StandsAt flash pc i → InRange i }
{}
