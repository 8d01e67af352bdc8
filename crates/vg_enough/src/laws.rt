// The laws of stacks that are large enough.
ghost use Rattle.std.specs.Prelude.{ℕ, ◌≤◌, List};
ghost use Rattle.avr_isa.specs.Agrees.{Agrees, Follows};
ghost use Rattle.avr_isa.specs.Cpu.{PowerOn, IsPowerOn};
ghost use Rattle.avr_isa.specs.Machine.{machine};
ghost use Rattle.vg_meaning.specs.Outside.{AreReads, AreVectors};
ghost use Rattle.vg_meaning.specs.Seen.{Seen};

/// A law of flashes that agree with sessions: enough stack, then it follows. Where the active calls of a session cost no more than the stack, the machine does
/// what the session does: it ends as the session ends, with the same trace, or goes on as long as the session has ticks left, and its stack stays at the floor
/// or above. The body is empty: its contract is a law of the definitions.
pub fn enough_stack_follows()
    ensures { (session : (reads interrupts : List ℕ) → ℕ → Seen) (flash : List ℕ) (floor stack : ℕ) → Agrees session flash floor stack
        → (memory : PowerOn) (reads interrupts : List ℕ) (clock : ℕ) → IsPowerOn memory → AreReads reads → AreVectors interrupts
        → (session reads interrupts clock).peak ≤ stack
        → Follows (machine flash memory reads interrupts) clock floor (session reads interrupts clock).ending (session reads interrupts clock).trace }
{}

/// A law of flashes that agree with sessions: never reached, then it follows. Where no instruction of a run brings the stack below the floor, the machine does
/// what the session does, whatever its active calls cost. The body is empty: its contract is a law of the definitions.
pub fn never_reached_follows()
    ensures { (session : (reads interrupts : List ℕ) → ℕ → Seen) (flash : List ℕ) (floor stack : ℕ) → Agrees session flash floor stack
        → (memory : PowerOn) (reads interrupts : List ℕ) (clock : ℕ) → IsPowerOn memory → AreReads reads → AreVectors interrupts
        → ((k : ℕ) → floor ≤ (machine flash memory reads interrupts k).lowest)
        → Follows (machine flash memory reads interrupts) clock floor (session reads interrupts clock).ending (session reads interrupts clock).trace }
{}
