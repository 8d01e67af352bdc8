// The laws of jumps, branches and stops.
ghost use Rattle.std.specs.Prelude.{ℕ, ◌≡◌, ◌≢◌, ◌+◌, ◌<◌, Bool, not, if◌then◌else◌};
ghost use Rattle.avr_instr.specs.declared.instr.Instr.TheVariants.{Brbc, Brbs, Ijmp, Jmp, Rjmp};
ghost use Rattle.avr_isa.specs.declared.ending.MachineEnd.TheVariants.{Stop};
ghost use Rattle.avr_isa.specs.Flags.{is_set, with_flags};
ghost use Rattle.avr_isa.specs.Flow.{near_from, far_from};
ghost use Rattle.avr_isa.specs.Machine.{State};
ghost use Rattle.avr_isa.specs.Standing.{StandsAt};
ghost use Rattle.avr_view.specs.Registers.{pair};
ghost use Rattle.avr_view.specs.Run.{Run, Goes, Ended};
ghost use Rattle.avr_view.specs.View.{View, At};

/// Laws of jumps: JMP and RJMP to another place, and IJMP, go there; nothing that the code sees changes.
pub fn jumps()
    ensures jmp { (e : Run) (pc : ℕ) (v : View) (s : State) → At e pc v s → (to : ℕ) → StandsAt e.flash pc (Jmp to) → to ≢ pc → Goes e ⊥ 1 s (At e to v) }
    ensures rjmp { (e : Run) (pc : ℕ) (v : View) (s : State) → At e pc v s → (k : ℕ) → StandsAt e.flash pc (Rjmp k) → far_from pc k ≢ pc
        → Goes e ⊥ 1 s (At e (far_from pc k) v) }
    ensures ijmp { (e : Run) (pc : ℕ) (v : View) (s : State) → At e pc v s → StandsAt e.flash pc Ijmp → Goes e ⊥ 1 s (At e (pair v.regs 30) v) }
{}

/// Laws of branches: BRBS and BRBC go on near by where the bit of SREG is set, or clear, and to the next instruction else.
pub fn branches()
    ensures set { (e : Run) (pc : ℕ) (v : View) (s : State) → At e pc v s → (bit k : ℕ) (flag : Bool) → StandsAt e.flash pc (Brbs bit k)
        → is_set bit (with_flags 0 v.regs.flags) ≡ flag → pc + 1 < 65536 → Goes e ⊥ 1 s (At e (if flag then near_from pc k else pc + 1) v) }
    ensures clear { (e : Run) (pc : ℕ) (v : View) (s : State) → At e pc v s → (bit k : ℕ) (flag : Bool) → StandsAt e.flash pc (Brbc bit k)
        → is_set bit (with_flags 0 v.regs.flags) ≡ flag → pc + 1 < 65536 → Goes e ⊥ 1 s (At e (if not flag then near_from pc k else pc + 1) v) }
{}

/// Laws of stops: RJMP and JMP to themselves end the run, with the code in r24.
pub fn stops()
    ensures rjmp { (e : Run) (pc : ℕ) (v : View) (s : State) → At e pc v s → StandsAt e.flash pc (Rjmp 0xFFF)
        → Goes e ⊥ 1 s (Ended e (Stop (v.regs.of 24)) v.out) }
    ensures jmp { (e : Run) (pc : ℕ) (v : View) (s : State) → At e pc v s → StandsAt e.flash pc (Jmp pc)
        → Goes e ⊥ 1 s (Ended e (Stop (v.regs.of 24)) v.out) }
{}
