// What it is worth to a user that a flash agrees with a session.
ghost use Rattle.std.specs.Prelude.{◌≤◌, ℕ, List};
ghost use Rattle.vg_meaning.specs.Outside.{AreReads, AreVectors};
ghost use Rattle.vg_meaning.specs.Seen.{Seen};
ghost use Rattle.avr_isa.specs.Agrees.{Agrees, Follows, NeverReaches};
ghost use Rattle.avr_isa.specs.Cpu.{PowerOn, IsPowerOn, marked};
ghost use Rattle.avr_isa.specs.Machine.{machine};

/// A law: where the active calls of a session cost at most the stack, the machine does what the session does.
pub fn follows_within_stack()
    ensures { (session : (reads interrupts : List ℕ) → ℕ → Seen) (flash : List ℕ) (floor stack : ℕ) → Agrees session flash floor stack
        → (memory : PowerOn) (reads interrupts : List ℕ) (clock : ℕ) → IsPowerOn memory → AreReads reads → AreVectors interrupts
        → (session reads interrupts clock).peak ≤ stack
        → Follows (machine flash memory reads interrupts) clock floor (session reads interrupts clock).ending (session reads interrupts clock).trace }
{}

/// A law: where no run reaches below the floor, the machine does what the session does.
pub fn follows_above_floor()
    ensures { (session : (reads interrupts : List ℕ) → ℕ → Seen) (flash : List ℕ) (floor stack : ℕ) → Agrees session flash floor stack
        → NeverReaches flash floor
        → (memory : PowerOn) (reads interrupts : List ℕ) (clock : ℕ) → IsPowerOn memory → AreReads reads → AreVectors interrupts
        → Follows (machine flash memory reads interrupts) clock floor (session reads interrupts clock).ending (session reads interrupts clock).trace }
{}

/// A law: what the processor holds at reset here is one of the contents that the chip may have at power-on.
pub fn marked_is_power_on()
    ensures { IsPowerOn marked }
{}
