// The laws of the entry of a procedure and of its exit, of calls and of returns.
ghost use Rattle.std.specs.Prelude.{ℕ, ◌≡◌, ◌+◌, ◌<◌, Bool, false, List, [], ◌∷◌, ◌++◌, length};
ghost use Rattle.vg_lin.specs.Steps.{Frame};
ghost use Rattle.vg_lin.specs.State.{State as LinState};
ghost use Rattle.avr_instr.specs.declared.instr.Instr.TheVariants.{Call};
ghost use Rattle.avr_isa.specs.Machine.{State};
ghost use Rattle.avr_isa.specs.Standing.{widths, StandsAt, AllStandAt};
ghost use Rattle.avr_view.specs.Registers.{pair};
ghost use Rattle.avr_view.specs.Run.{Run, Goes};
ghost use Rattle.avr_view.specs.View.{View, At};
ghost use Rattle.vg_templates.specs.CallOutcomes.{Begun, Resumed};
ghost use Rattle.vg_templates.specs.Frames.{Fits, Waits, Places, word_bytes, between, back_to, needed, Points, Callers, Stacked};
ghost use Rattle.vg_templates.specs.Layouts.{Layout, IsLayout};
ghost use Rattle.vg_templates.specs.Linkage.{saves, epilogue, Entered, Left};

/// A law of the entry: from where the first part of the prologue of a layout stands, the run comes behind it, with the registers saved and the slots taken; or it
/// reaches below the floor, which it does only where so many bytes more are too many.
pub fn prologues_enter()
    ensures { (e : Run) (l : Layout) (pc : ℕ) (v : View) (s : State) → (l.pointed ≡ false → l.slots ≡ 0) → l.slots < 0x1000
        → AllStandAt e.flash pc (saves l) → pc + widths (saves l) < 65536 → At e pc v s
        → Goes e (0x1100 < e.floor + length v.stack + length l.saved + l.slots) 0 s (Entered e l (pc + widths (saves l)) v) }
{}

/// A law of the exit: where the slots, the saved bytes and the return address lie on the stack, and Y points before the slots, the run goes back to
/// that address with the registers that were saved.
pub fn epilogues_leave()
    ensures { (e : Run) (l : Layout) (pc back : ℕ) (slots bytes below : List ℕ) (v : View) (s : State) → l.slots < 0x1000
        → AllStandAt e.flash pc (epilogue l) → pc + widths (epilogue l) < 65536 → v.stack ≡ slots ++ (bytes ++ (word_bytes back ++ below))
        → length slots ≡ l.slots → length bytes ≡ length l.saved → (0 < l.slots → pair v.regs 28 + 1 + length v.stack ≡ 0x1100) → At e pc v s
        → Goes e ⊥ 1 s (Left e l bytes back below v) }
{}

/// A law of calls, and of the call in the stub of an interrupt's handler: where CALL stands, and where it leads the first part of the prologue of the
/// procedure, the run comes behind that. The bytes in front of what waits become its arguments where they lie, and the procedure that calls, or that the
/// interrupt has interrupted, is its newest caller; or it reaches below the floor, which it does only where the return address, the saved registers
/// and the slots are too many.
pub fn calls_begin()
    ensures { (e : Run) (i : Places) → ((m : ℕ) → IsLayout (i.layouts m)) → (q pc entry : ℕ) (f : Frame LinState) (frames : List (Frame LinState))
        (args wait own under : List ℕ) (v : View) (s : State) → StandsAt e.flash pc (Call entry) → pc + 2 < 65536
        → back_to i f.awaits q f.proc f.pc ≡ pc + 2
        → AllStandAt e.flash entry (saves (i.layouts q)) → entry + widths (saves (i.layouts q)) < 65536
        → v.stack ≡ args ++ (between i f.awaits f.proc f.pc ++ (wait ++ (own ++ under))) → Points (i.layouts f.proc) own under v.regs
        → Waits f.kept.waiting wait
        → Fits (i.layouts f.proc) (needed i f.proc f.awaits f.pc) f.kept.locals own v.regs → Callers i frames f.proc own under v.regs → At e pc v s
        → Goes e (0x1100 < e.floor + length v.stack + 2 + length (i.layouts q).saved + (i.layouts q).slots) 1 s
        (Begun e i q f frames args (entry + widths (saves (i.layouts q))) v) }
{}

/// A law of returns: where nothing waits in a procedure that has a caller, its epilogue leads to where the caller goes on. It finds its registers, what
/// waits and its locals again; scratch registers, and so the result, are as the procedure left them.
pub fn calls_return()
    ensures { (e : Run) (i : Places) → ((m : ℕ) → IsLayout (i.layouts m)) → (q pc : ℕ) (live : ℕ → Bool) (now : LinState) (f : Frame LinState)
        (frames : List (Frame LinState)) (v : View) (s : State) → AllStandAt e.flash pc (epilogue (i.layouts q))
        → pc + widths (epilogue (i.layouts q)) < 65536 → now.waiting ≡ [] → Stacked i q live now (f ∷ frames) v.stack v.regs → At e pc v s
        → Goes e ⊥ 1 s (Resumed e i q f frames v) }
{}
