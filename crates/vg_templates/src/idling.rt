// The laws of waiting for interrupts.
ghost use Rattle.std.specs.Prelude.{ℕ, ◌≡◌, ◌+◌, ◌*◌, ◌<◌, List, [], ◌∷◌, ◌++◌, length};
ghost use Rattle.avr_instr.specs.declared.instr.Instr.TheVariants.{Call, Reti};
ghost use Rattle.avr_isa.specs.declared.ending.MachineEnd.TheVariants.{Idle};
ghost use Rattle.avr_isa.specs.Machine.{State};
ghost use Rattle.avr_isa.specs.Standing.{widths, StandsAt, AllStandAt};
ghost use Rattle.vg_lin.specs.Steps.{Frame, Interrupt};
ghost use Rattle.vg_lin.specs.State.{State as LinState};
ghost use Rattle.avr_view.specs.Run.{Run, Goes, Front, Ended};
ghost use Rattle.avr_view.specs.View.{View, At};
ghost use Rattle.vg_templates.specs.Layouts.{IsLayout};
ghost use Rattle.vg_templates.specs.Linkage.{saves};
ghost use Rattle.vg_templates.specs.Frames.{Fits, Waits, Places, needed, Points, Callers};
ghost use Rattle.vg_templates.specs.CallOutcomes.{Begun, Resumed};
ghost use Rattle.vg_templates.specs.Idle.{IsIdle, IsHandled, entered, Back};

/// Laws of the call of the idle piece: with no interrupt left the run ends idle; one without a handler is taken and passes, and the run comes behind
/// the call; or the stack reaches below the floor, which it does only where the return addresses are too many.
pub fn waiting_ends()
    ensures idle { (e : Run) (i : Places) (idle : ℕ) → IsIdle e i idle → (place : ℕ) (v : View) (s : State) → StandsAt e.flash place (Call idle)
        → place + 2 < 65536 → v.out.interrupts ≡ [] → At e place v s → Goes e (0x1100 < e.floor + length v.stack + 2) 1 s (Ended e Idle v.out) }
    ensures pass { (e : Run) (i : Places) (idle : ℕ) → IsIdle e i idle → (place k : ℕ) (ks : List ℕ) (v : View) (s : State)
        → StandsAt e.flash place (Call idle) → place + 2 < 65536 → StandsAt e.flash (2 * k) Reti → v.out.interrupts ≡ k ∷ ks
        → Front e (entered v.out k ks) → At e place v s
        → Goes e (0x1100 < e.floor + length v.stack + 4) 1 s (At e (place + 2) (record v { out = entered v.out k ks })) }
{}

/// Laws of an interrupt with a handler. From the call of the idle piece the run comes behind the first part of the prologue of the handler, for which the procedure that
/// idles waits, or the stack reaches below the floor, which it does only where three return addresses, the saved registers and the slots are too many.
/// And from where the epilogue of the handler leads, by RETI, CLI and RET, it comes behind that call: the procedure finds its registers, what waits and
/// its locals again.
pub fn handlers_run()
    ensures begin { (e : Run) (i : Places) (idle : ℕ) → IsIdle e i idle → ((m : ℕ) → IsLayout (i.layouts m)) → (place k q at entry m pc : ℕ)
        (ks : List ℕ) (kept : LinState) (frames : List (Frame LinState)) (wait own under : List ℕ) (v : View) (s : State) → IsHandled e i k q at entry
        → StandsAt e.flash place (Call idle) → place + 2 < 65536 → i.behind m pc ≡ place + 2 → AllStandAt e.flash entry (saves (i.layouts q))
        → entry + widths (saves (i.layouts q)) < 65536 → v.stack ≡ wait ++ (own ++ under) → Points (i.layouts m) own under v.regs
        → Waits kept.waiting wait → Fits (i.layouts m) (needed i m Interrupt pc) kept.locals own v.regs
        → Callers i frames m own under v.regs → v.out.interrupts ≡ k ∷ ks → Front e (entered v.out k ks) → At e place v s
        → Goes e (0x1100 < e.floor + length v.stack + 6 + length (i.layouts q).saved + (i.layouts q).slots) 1 s
        (Begun e i q (record { proc = m; pc = pc; kept = kept; awaits = Interrupt }) frames [] (entry + widths (saves (i.layouts q)))
        (record v { out = entered v.out k ks })) }
    ensures back { (e : Run) (i : Places) (idle : ℕ) → IsIdle e i idle → ((m : ℕ) → IsLayout (i.layouts m)) → (q place : ℕ) (f : Frame LinState)
        (frames : List (Frame LinState)) (old : View) (s : State) → f.awaits ≡ Interrupt → (i.layouts q).pushed ≡ 0
        → StandsAt e.flash (i.stub_end q) Reti → i.behind f.proc f.pc ≡ place + 2 → Resumed e i q f frames old s
        → Goes e ⊥ 3 s (Back e i f frames old) }
{}
