// The law of calls.
ghost use Rattle.std.specs.Prelude.{ℕ, ◌≡◌, ◌+◌, ◌<◌, ◌≤◌, Bool, true, List, ◌∷◌, length};
ghost use Rattle.avr_isa.specs.Machine.{State as MachineState};
ghost use Rattle.avr_isa.specs.Standing.{widths, StandsAt, AllStandAt};
ghost use Rattle.vg_lin.specs.declared.instr.Call.{Call};
ghost use Rattle.vg_lin.specs.Steps.{Result, Frame};
ghost use Rattle.vg_lin.specs.State.{Waiting, State};
ghost use Rattle.vg_lin.specs.Meaning.{same_widths};
ghost use Rattle.avr_view.specs.Run.{Run, Goes};
ghost use Rattle.avr_view.specs.View.{View, At};
ghost use Rattle.vg_templates.specs.Layouts.{IsLayout};
ghost use Rattle.vg_templates.specs.Linkage.{prologue};
ghost use Rattle.vg_templates.specs.Frames.{bytes_of, Places, needed};
ghost use Rattle.vg_templates.specs.Pieces.{Sees};
ghost use Rattle.vg_templates.specs.Held.{Held};
ghost use Rattle.vg_templates.specs.Outcomes.{Lies};
ghost use Rattle.vg_templates.specs.Calls.{Way, call_code, call_words, leads_to, HasPushed, HasArriving, Carried, taken_by, kept_by, begins_with, begins_on};

/// Laws of calls, by CALL, RCALL or ICALL, whose arguments all wait on the stack, or are all in registers: where the call leads to the prologue of a
/// procedure, the run comes behind it, and the procedure lies there in the state in which it begins, with the caller as its newest one. Its arguments are
/// where they were pushed, or those that are live have gone from the registers to their spots. Or the run reaches below the floor, which it does only where
/// the return address, the saved registers and the slots are too many.
pub fn calls_enter()
    ensures pushed { (e : Run) (i : Places) → ((m : ℕ) → IsLayout (i.layouts m)) → (way : Way) (q m pc place n entry : ℕ) (call : Call)
        (live behind : ℕ → Bool) (s : State) (frames : List (Frame State)) (v : View) (t : MachineState) → StandsAt e.flash place (call_code way)
        → place + call_words way < 65536 → i.behind m pc ≡ place + call_words way → leads_to way place v.regs ≡ entry
        → AllStandAt e.flash entry (prologue (i.layouts q)) → entry + widths (prologue (i.layouts q)) < 65536
        → same_widths (i.layouts q).widths (taken_by n s) ≡ true → HasPushed (i.layouts q) (length (taken_by n s))
        → ((k : ℕ) → needed i m (Result call) pc k ≡ true → live k ≡ true) → Held i m live s frames v → At e place v t
        → Goes e (0x1100 < e.floor + length v.stack + 2 + length (i.layouts q).saved + (i.layouts q).slots) 1 t
        (Sees e (Lies i q behind (begins_with (i.layouts q) n s) (record { proc = m; pc = pc; kept = kept_by n s; awaits = Result call } ∷ frames) v.out)
        (entry + widths (prologue (i.layouts q)))) }
    ensures carried { (e : Run) (i : Places) → ((m : ℕ) → IsLayout (i.layouts m)) → (way : Way) (q m pc place entry : ℕ) (call : Call)
        (live behind : ℕ → Bool) (s : State) (arguments : List Waiting) (frames : List (Frame State)) (v : View) (t : MachineState)
        → StandsAt e.flash place (call_code way) → place + call_words way < 65536 → i.behind m pc ≡ place + call_words way
        → leads_to way place v.regs ≡ entry → AllStandAt e.flash entry (prologue (i.layouts q)) → entry + widths (prologue (i.layouts q)) < 65536
        → same_widths (i.layouts q).widths arguments ≡ true → HasArriving (i.layouts q) behind (length arguments) → bytes_of arguments ≤ 8
        → Carried v.regs 18 arguments → ((k : ℕ) → needed i m (Result call) pc k ≡ true → live k ≡ true) → Held i m live s frames v → At e place v t
        → Goes e (0x1100 < e.floor + length v.stack + 2 + length (i.layouts q).saved + (i.layouts q).slots) 1 t
        (Sees e (Lies i q behind (begins_on (i.layouts q) arguments s) (record { proc = m; pc = pc; kept = s; awaits = Result call } ∷ frames) v.out)
        (entry + widths (prologue (i.layouts q)))) }
{}
