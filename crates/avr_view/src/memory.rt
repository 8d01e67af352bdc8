// The laws of loads and stores of bytes that the code sees in SRAM.
ghost use Rattle.std.specs.Prelude.{ℕ, ◌+◌, ◌<◌};
ghost use Rattle.avr_instr.specs.declared.instr.Instr.TheVariants.{LdX, LdXPlus, LdMinusX, Ldd, Lds, StX, StXPlus, StMinusX, Std, Sts};
ghost use Rattle.avr_instr.specs.declared.operand.Base.{Base};
ghost use Rattle.avr_isa.specs.Access.{low_of};
ghost use Rattle.avr_isa.specs.Change.{previous};
ghost use Rattle.avr_isa.specs.Machine.{State};
ghost use Rattle.avr_isa.specs.Standing.{StandsAt};
ghost use Rattle.avr_view.specs.Memory.{Cell};
ghost use Rattle.avr_view.specs.Registers.{pair, put, put_pair, put_next};
ghost use Rattle.avr_view.specs.Run.{Run, Goes};
ghost use Rattle.avr_view.specs.View.{View, At, IsCell, byte_in, with_byte};

/// Laws of loads: behind LDD with Y or Z, LDS, LD X, LD X+ and LD -X from a cell of the static area or of the stack, the register has its byte;
/// of what the code sees nothing else has changed but X, where it moves.
pub fn loads()
    ensures ldd { (e : Run) (pc : ℕ) (v : View) (s : State) → At e pc v s → (d : ℕ) (b : Base) (q : ℕ) (c : Cell) → StandsAt e.flash pc (Ldd d b q)
        → pc + 1 < 65536 → IsCell v c (pair v.regs (low_of b) + q) → Goes e ⊥ 1 s (At e (pc + 1) (record v { regs = put v.regs d (byte_in v c) })) }
    ensures lds { (e : Run) (pc : ℕ) (v : View) (s : State) → At e pc v s → (d address : ℕ) (c : Cell) → StandsAt e.flash pc (Lds d address)
        → pc + 2 < 65536 → IsCell v c address → Goes e ⊥ 1 s (At e (pc + 2) (record v { regs = put v.regs d (byte_in v c) })) }
    ensures ldx { (e : Run) (pc : ℕ) (v : View) (s : State) → At e pc v s → (d : ℕ) (c : Cell) → StandsAt e.flash pc (LdX d)
        → pc + 1 < 65536 → IsCell v c (pair v.regs 26) → Goes e ⊥ 1 s (At e (pc + 1) (record v { regs = put v.regs d (byte_in v c) })) }
    ensures after { (e : Run) (pc : ℕ) (v : View) (s : State) → At e pc v s → (d : ℕ) (c : Cell) → StandsAt e.flash pc (LdXPlus d)
        → pc + 1 < 65536 → IsCell v c (pair v.regs 26) → Goes e ⊥ 1 s (At e (pc + 1) (record v { regs = put_next (put v.regs d (byte_in v c)) 26 })) }
    ensures before { (e : Run) (pc : ℕ) (v : View) (s : State) → At e pc v s → (d : ℕ) (c : Cell) → StandsAt e.flash pc (LdMinusX d)
        → pc + 1 < 65536 → IsCell v c (previous (pair v.regs 26))
        → Goes e ⊥ 1 s (At e (pc + 1) (record v { regs = put (put_pair v.regs 26 (previous (pair v.regs 26))) d (byte_in v c) })) }
{}

/// Laws of stores: behind STD with Y or Z, STS, ST X, ST X+ and ST -X to a cell of the static area or of the stack, this byte alone has changed,
/// and X, where it moves.
pub fn stores()
    ensures std { (e : Run) (pc : ℕ) (v : View) (s : State) → At e pc v s → (b : Base) (q d : ℕ) (c : Cell) → StandsAt e.flash pc (Std b q d)
        → pc + 1 < 65536 → IsCell v c (pair v.regs (low_of b) + q) → Goes e ⊥ 1 s (At e (pc + 1) (with_byte v c (v.regs.of d))) }
    ensures sts { (e : Run) (pc : ℕ) (v : View) (s : State) → At e pc v s → (address d : ℕ) (c : Cell) → StandsAt e.flash pc (Sts address d)
        → pc + 2 < 65536 → IsCell v c address → Goes e ⊥ 1 s (At e (pc + 2) (with_byte v c (v.regs.of d))) }
    ensures stx { (e : Run) (pc : ℕ) (v : View) (s : State) → At e pc v s → (d : ℕ) (c : Cell) → StandsAt e.flash pc (StX d)
        → pc + 1 < 65536 → IsCell v c (pair v.regs 26) → Goes e ⊥ 1 s (At e (pc + 1) (with_byte v c (v.regs.of d))) }
    ensures after { (e : Run) (pc : ℕ) (v : View) (s : State) → At e pc v s → (d : ℕ) (c : Cell) → StandsAt e.flash pc (StXPlus d)
        → pc + 1 < 65536 → IsCell v c (pair v.regs 26)
        → Goes e ⊥ 1 s (At e (pc + 1) (with_byte (record v { regs = put_next v.regs 26 }) c (v.regs.of d))) }
    ensures before { (e : Run) (pc : ℕ) (v : View) (s : State) → At e pc v s → (d : ℕ) (c : Cell) → StandsAt e.flash pc (StMinusX d)
        → pc + 1 < 65536 → IsCell v c (previous (pair v.regs 26))
        → Goes e ⊥ 1 s (At e (pc + 1) (with_byte (record v { regs = put_pair v.regs 26 (previous (pair v.regs 26)) }) c (v.regs.of d))) }
{}
