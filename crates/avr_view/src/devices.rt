// The laws of reads and writes of device registers.
ghost use Rattle.std.specs.Prelude.{ℕ, ◌≡◌, ◌+◌, ◌<◌, List, [], ◌∷◌};
ghost use Rattle.vg_meaning.specs.declared.event.Event.TheVariants.{Read, Write};
ghost use Rattle.vg_meaning.specs.Device.{IsDeviceAddress};
ghost use Rattle.vg_meaning.specs.Outside.{with_event};
ghost use Rattle.avr_instr.specs.declared.instr.Instr.TheVariants.{In, Lds, Out, Sts};
ghost use Rattle.avr_isa.specs.declared.ending.MachineEnd.TheVariants.{Wants};
ghost use Rattle.avr_isa.specs.Machine.{State};
ghost use Rattle.avr_isa.specs.Standing.{StandsAt};
ghost use Rattle.avr_view.specs.Registers.{put};
ghost use Rattle.avr_view.specs.Run.{Run, Goes, Front, Ended};
ghost use Rattle.avr_view.specs.View.{View, At};

/// Laws of writes: behind STS and OUT to a device register the write is shown, and nothing else that the code sees has changed. The whole trace
/// must go on from there.
pub fn writes()
    ensures sts { (e : Run) (pc : ℕ) (v : View) (s : State) → At e pc v s → (x d : ℕ) → StandsAt e.flash pc (Sts x d) → IsDeviceAddress x
        → pc + 2 < 65536 → Front e (with_event v.out (Write x (v.regs.of d)))
        → Goes e ⊥ 1 s (At e (pc + 2) (record v { out = with_event v.out (Write x (v.regs.of d)) })) }
    ensures out { (e : Run) (pc : ℕ) (v : View) (s : State) → At e pc v s → (p d : ℕ) → StandsAt e.flash pc (Out p d) → IsDeviceAddress (p + 0x20)
        → pc + 1 < 65536 → Front e (with_event v.out (Write (p + 0x20) (v.regs.of d)))
        → Goes e ⊥ 1 s (At e (pc + 1) (record v { out = with_event v.out (Write (p + 0x20) (v.regs.of d)) })) }
{}

/// Laws of reads: behind LDS and IN from a device register the register has the next read, which is shown; with no read left the run ends so.
pub fn reads()
    ensures lds { (e : Run) (pc : ℕ) (v : View) (s : State) → At e pc v s → (d x r : ℕ) (rs : List ℕ) → StandsAt e.flash pc (Lds d x)
        → IsDeviceAddress x → pc + 2 < 65536 → v.out.reads ≡ r ∷ rs → Front e (with_event (record v.out { reads = rs }) (Read x r))
        → Goes e ⊥ 1 s (At e (pc + 2) (record v { regs = put v.regs d r; out = with_event (record v.out { reads = rs }) (Read x r) })) }
    ensures lds_wants { (e : Run) (pc : ℕ) (v : View) (s : State) → At e pc v s → (d x : ℕ) → StandsAt e.flash pc (Lds d x) → IsDeviceAddress x
        → v.out.reads ≡ [] → Goes e ⊥ 1 s (Ended e (Wants x) v.out) }
    ensures in_device { (e : Run) (pc : ℕ) (v : View) (s : State) → At e pc v s → (d p r : ℕ) (rs : List ℕ) → StandsAt e.flash pc (In d p)
        → IsDeviceAddress (p + 0x20) → pc + 1 < 65536 → v.out.reads ≡ r ∷ rs → Front e (with_event (record v.out { reads = rs }) (Read (p + 0x20) r))
        → Goes e ⊥ 1 s (At e (pc + 1) (record v { regs = put v.regs d r; out = with_event (record v.out { reads = rs }) (Read (p + 0x20) r) })) }
    ensures in_wants { (e : Run) (pc : ℕ) (v : View) (s : State) → At e pc v s → (d p : ℕ) → StandsAt e.flash pc (In d p)
        → IsDeviceAddress (p + 0x20) → v.out.reads ≡ [] → Goes e ⊥ 1 s (Ended e (Wants (p + 0x20)) v.out) }
{}
