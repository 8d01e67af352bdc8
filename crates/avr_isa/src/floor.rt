// How deep the stack of a run goes, and what that says of SRAM and of the stack pointer.
ghost use Rattle.std.specs.Prelude.{◌≡◌, ◌≤◌, ℕ, List, Some, None, true};
ghost use Rattle.avr_instr.specs.declared.instr.Instr.{Instr};
ghost use Rattle.avr_instr.specs.declared.instr.Instr.TheVariants.{Call, Icall, Push, Rcall, Sleep};
ghost use Rattle.avr_isa.specs.declared.ending.MachineEnd.{MachineEnd};
ghost use Rattle.avr_isa.specs.Cpu.{is_enabled};
ghost use Rattle.avr_isa.specs.Floor.{KeepsBelow, WritesSpl, SeesPointer};
ghost use Rattle.avr_isa.specs.Machine.{State, instr_here, next_state, run_from};

/// A law: once a run has ended with its stack at or above a floor, no state of it is below that floor, before or behind its end.
pub fn ended_above()
    ensures { (flash : List ℕ) (s : State) (j floor : ℕ) (end : MachineEnd) → (run_from flash j s).ended ≡ Some end → floor ≤ (run_from flash j s).lowest
        → (k : ℕ) → floor ≤ (run_from flash k s).lowest }
{}

/// Laws of what is pushed: behind a PUSH, an RCALL, an ICALL, a CALL and the taking of an interrupt each byte of SRAM below the
/// lowest address that the stack has reached is what it was, whether the bytes were pushed or the run has ended for them.
pub fn pushes_keep_below()
    ensures push { (flash : List ℕ) (s : State) (r : ℕ) → s.ended ≡ None → instr_here flash s.cpu ≡ Some (Push r) → KeepsBelow s (next_state flash s) }
    ensures rcall { (flash : List ℕ) (s : State) (k : ℕ) → s.ended ≡ None → instr_here flash s.cpu ≡ Some (Rcall k) → KeepsBelow s (next_state flash s) }
    ensures icall { (flash : List ℕ) (s : State) → s.ended ≡ None → instr_here flash s.cpu ≡ Some Icall → KeepsBelow s (next_state flash s) }
    ensures call { (flash : List ℕ) (s : State) (k : ℕ) → s.ended ≡ None → instr_here flash s.cpu ≡ Some (Call k) → KeepsBelow s (next_state flash s) }
    ensures interrupt { (flash : List ℕ) (s : State) → s.ended ≡ None → instr_here flash s.cpu ≡ Some Sleep → is_enabled s.cpu.sreg ≡ true
        → KeepsBelow s (next_state flash s) }
{}

/// A law of the stack pointer: behind an instruction that writes SPL, the byte above SP counts as reached, and all of SRAM where
/// SP is above 0x10FF.
pub fn spl_is_seen()
    ensures { (flash : List ℕ) (s : State) (i : Instr) → s.ended ≡ None → instr_here flash s.cpu ≡ Some i → WritesSpl i s.cpu
        → SeesPointer (next_state flash s) }
{}
