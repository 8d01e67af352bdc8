// The laws of what moves the stack pointer.
ghost use Rattle.std.specs.Prelude.{ℕ, ◌≡◌, ◌+◌, ◌-◌, ◌*◌, ◌/◌, ◌%◌, ◌<◌, List, [], ◌∷◌, ◌++◌, length};
ghost use Rattle.avr_instr.specs.declared.instr.Instr.TheVariants.{Call, Icall, In, Out, Pop, Push, Rcall, Ret};
ghost use Rattle.avr_isa.specs.Flow.{far_from};
ghost use Rattle.avr_isa.specs.Machine.{State};
ghost use Rattle.avr_isa.specs.Standing.{StandsAt};
ghost use Rattle.avr_view.specs.Registers.{pair, put};
ghost use Rattle.avr_view.specs.Run.{Run, Goes};
ghost use Rattle.avr_view.specs.View.{View, At};

/// Laws of single bytes: PUSH puts a register on the stack, or reaches below the floor, which it does only where one more byte is too many; POP
/// takes the newest byte.
pub fn bytes_move()
    ensures push { (e : Run) (pc : ℕ) (v : View) (s : State) → At e pc v s → (d : ℕ) → StandsAt e.flash pc (Push d) → pc + 1 < 65536
        → Goes e (0x1100 < e.floor + length v.stack + 1) 1 s (At e (pc + 1) (record v { stack = v.regs.of d ∷ v.stack })) }
    ensures pop { (e : Run) (pc : ℕ) (v : View) (s : State) → At e pc v s → (d x : ℕ) (below : List ℕ) → v.stack ≡ x ∷ below
        → StandsAt e.flash pc (Pop d) → pc + 1 < 65536 → Goes e ⊥ 1 s (At e (pc + 1) (record v { regs = put v.regs d x; stack = below })) }
{}

/// Laws of the pointer itself: IN tells where the stack ends; OUT to SPH and then to SPL lowers it, where the bytes between are what they were, or
/// reaches below the floor, or it raises it.
pub fn pointer_moves()
    ensures in_low { (e : Run) (pc : ℕ) (v : View) (s : State) → At e pc v s → (d : ℕ) → StandsAt e.flash pc (In d 0x3D) → pc + 1 < 65536
        → Goes e ⊥ 1 s (At e (pc + 1) (record v { regs = put v.regs d ((0x10FF - length v.stack) % 256) })) }
    ensures in_high { (e : Run) (pc : ℕ) (v : View) (s : State) → At e pc v s → (d : ℕ) → StandsAt e.flash pc (In d 0x3E) → pc + 1 < 65536
        → Goes e ⊥ 1 s (At e (pc + 1) (record v { regs = put v.regs d ((0x10FF - length v.stack) / 256) })) }
    ensures lower { (e : Run) (pc : ℕ) (v : View) (s : State) → At e pc v s → (h l n : ℕ) → StandsAt e.flash pc (Out 0x3E h)
        → StandsAt e.flash (pc + 1) (Out 0x3D l) → pc + 2 < 65536 → v.regs.of h * 256 + v.regs.of l ≡ (0x10FF - length v.stack + 65536 - n) % 65536
        → n < 0x2000 → Goes e (0x1100 < e.floor + length v.stack + n) 2 s
        (λ t. (x : List ℕ) × (length x ≡ n) × At e (pc + 2) (record v { stack = x ++ v.stack }) t) }
    ensures raise { (e : Run) (pc : ℕ) (v : View) (s : State) → At e pc v s → (h l : ℕ) (x below : List ℕ) → v.stack ≡ x ++ below
        → StandsAt e.flash pc (Out 0x3E h) → StandsAt e.flash (pc + 1) (Out 0x3D l) → pc + 2 < 65536
        → v.regs.of h * 256 + v.regs.of l ≡ 0x10FF - length below → Goes e ⊥ 2 s (At e (pc + 2) (record v { stack = below })) }
{}

/// Laws of calls: CALL, RCALL and ICALL put the word address behind them on the stack, its high byte last, or reach below the floor, which they do
/// only where two more bytes are too many; RET goes back to it.
pub fn calls_and_returns()
    ensures call { (e : Run) (pc : ℕ) (v : View) (s : State) → At e pc v s → (k : ℕ) → StandsAt e.flash pc (Call k) → pc + 2 < 65536
        → Goes e (0x1100 < e.floor + length v.stack + 2) 1 s (At e k (record v { stack = (pc + 2) / 256 ∷ (pc + 2) % 256 ∷ v.stack })) }
    ensures rcall { (e : Run) (pc : ℕ) (v : View) (s : State) → At e pc v s → (k : ℕ) → StandsAt e.flash pc (Rcall k) → pc + 1 < 65536
        → Goes e (0x1100 < e.floor + length v.stack + 2) 1 s (At e (far_from pc k) (record v { stack = (pc + 1) / 256 ∷ (pc + 1) % 256 ∷ v.stack })) }
    ensures icall { (e : Run) (pc : ℕ) (v : View) (s : State) → At e pc v s → StandsAt e.flash pc Icall → pc + 1 < 65536
        → Goes e (0x1100 < e.floor + length v.stack + 2) 1 s
        (At e (pair v.regs 30) (record v { stack = (pc + 1) / 256 ∷ (pc + 1) % 256 ∷ v.stack })) }
    ensures ret { (e : Run) (pc : ℕ) (v : View) (s : State) → At e pc v s → (to : ℕ) (below : List ℕ) → v.stack ≡ to / 256 ∷ to % 256 ∷ below
        → StandsAt e.flash pc Ret → Goes e ⊥ 1 s (At e to (record v { stack = below })) }
{}
