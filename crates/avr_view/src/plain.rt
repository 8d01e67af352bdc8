// The laws of instructions that touch registers and flags alone.
ghost use Rattle.std.specs.Prelude.{ℕ, ◌+◌, ◌<◌, List, length};
ghost use Rattle.avr_instr.specs.declared.instr.Instr.{Instr};
ghost use Rattle.avr_isa.specs.Machine.{State};
ghost use Rattle.avr_isa.specs.Standing.{width, widths, StandsAt, AllStandAt};
ghost use Rattle.avr_view.specs.Registers.{does, does_all, IsPlain, ArePlain};
ghost use Rattle.avr_view.specs.Run.{Run, Goes};
ghost use Rattle.avr_view.specs.View.{View, At};

/// Laws of plain instructions, one and a block: from where they stand the machine comes behind them, and of what the code sees they change
/// registers and flags alone. They never reach below the floor.
pub fn plain_instructions()
    ensures one { (e : Run) (i : Instr) (pc : ℕ) (v : View) (s : State) → StandsAt e.flash pc i → IsPlain i → pc + width i < 65536 → At e pc v s
        → Goes e ⊥ 1 s (At e (pc + width i) (record v { regs = does e.flash i v.regs })) }
    ensures block { (e : Run) (is : List Instr) (pc : ℕ) (v : View) (s : State) → AllStandAt e.flash pc is → ArePlain is → pc + widths is < 65536
        → At e pc v s → Goes e ⊥ (length is) s (At e (pc + widths is) (record v { regs = does_all e.flash is v.regs })) }
{}
