// The laws of the idle place, where alone interrupts come in.
ghost use Rattle.std.specs.Prelude.{ℕ, ◌≡◌, ◌+◌, ◌*◌, ◌/◌, ◌%◌, ◌<◌, true, List, [], ◌∷◌, length};
ghost use Rattle.vg_meaning.specs.declared.event.Event.TheVariants.{Enter};
ghost use Rattle.vg_meaning.specs.Outside.{with_event};
ghost use Rattle.avr_instr.specs.declared.instr.Instr.TheVariants.{Cli, Reti, Sei, Sleep};
ghost use Rattle.avr_isa.specs.declared.ending.MachineEnd.TheVariants.{Idle};
ghost use Rattle.avr_isa.specs.Machine.{State};
ghost use Rattle.avr_isa.specs.Standing.{StandsAt};
ghost use Rattle.avr_view.specs.Run.{Run, Goes, Front, Ended};
ghost use Rattle.avr_view.specs.View.{View, At};

/// Laws of SEI with the SLEEP behind it, at a place where interrupts are let in: with none left the run ends idle; the next one is taken, with the
/// word address behind the SLEEP on the stack, or its two bytes reach below the floor.
pub fn sleeping()
    ensures idle { (e : Run) (pc : ℕ) (v : View) (s : State) → At e pc v s → StandsAt e.flash pc Sei → StandsAt e.flash (pc + 1) Sleep → pc + 2 < 65536
        → e.lets_in (pc + 1) ≡ true → v.out.interrupts ≡ [] → Goes e ⊥ 2 s (Ended e Idle v.out) }
    ensures wake { (e : Run) (pc : ℕ) (v : View) (s : State) → At e pc v s → StandsAt e.flash pc Sei → StandsAt e.flash (pc + 1) Sleep → pc + 2 < 65536
        → e.lets_in (pc + 1) ≡ true → (k : ℕ) (ks : List ℕ) → v.out.interrupts ≡ k ∷ ks
        → Front e (with_event (record v.out { interrupts = ks }) (Enter k))
        → Goes e (0x1100 < e.floor + length v.stack + 2) 2 s (At e (2 * k) (record v {
          stack = (pc + 2) / 256 ∷ (pc + 2) % 256 ∷ v.stack;
          out = with_event (record v.out { interrupts = ks }) (Enter k);
        })) }
{}

/// A law of RETI with the CLI to which it goes back, where interrupts are let in: both together take the word address from the stack.
pub fn going_back()
    ensures { (e : Run) (pc back : ℕ) (below : List ℕ) (v : View) (s : State) → At e pc v s → v.stack ≡ back / 256 ∷ back % 256 ∷ below
        → StandsAt e.flash pc Reti → StandsAt e.flash back Cli → back + 1 < 65536 → e.lets_in back ≡ true
        → Goes e ⊥ 2 s (At e (back + 1) (record v { stack = below })) }
{}
