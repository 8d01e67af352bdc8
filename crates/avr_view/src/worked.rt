// A worked program, from its bytes to what it shows.
ghost use Rattle.std.specs.Prelude.{ℕ, List};
ghost use Rattle.vg_meaning.specs.Outside.{AreReads, AreVectors};
ghost use Rattle.avr_isa.specs.Agrees.{FollowsSeen};
ghost use Rattle.avr_isa.specs.Cpu.{PowerOn, IsPowerOn};
ghost use Rattle.avr_isa.specs.Machine.{machine};
ghost use Rattle.avr_view.specs.Worked.{stopping_image, stopped};

/// A worked program: the image of seven instructions that sets SP, puts 7 into r24 and jumps to itself stops with the code 7, whatever the chip holds
/// at power-on. Its law is put together from those of its instructions alone.
pub fn program_stops()
    ensures { (memory : PowerOn) (reads interrupts : List ℕ) (clock : ℕ) → IsPowerOn memory → AreReads reads → AreVectors interrupts
        → FollowsSeen (machine stopping_image memory reads interrupts) clock 0x1100 0 stopped }
{}
