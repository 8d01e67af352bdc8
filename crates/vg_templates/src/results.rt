// The laws of returns and of what follows a call.
ghost use Rattle.std.specs.Prelude.{ℕ, suc, ◌≡◌, ◌+◌, ◌<◌, ◌≤◌, Bool, List, [], ◌∷◌, Some};
ghost use Rattle.vg_meaning.specs.Outside.{Outside};
ghost use Rattle.avr_isa.specs.Machine.{State as MachineState};
ghost use Rattle.avr_isa.specs.Standing.{widths, AllStandAt};
ghost use Rattle.vg_lin.specs.declared.instr.Call.{Call};
ghost use Rattle.vg_lin.specs.declared.instr.Operand.{Operand};
ghost use Rattle.vg_lin.specs.Steps.{Result, Frame};
ghost use Rattle.vg_lin.specs.State.{State, value};
ghost use Rattle.vg_lin.specs.Meaning.{with_result};
ghost use Rattle.vg_lin.specs.Values.{low};
ghost use Rattle.avr_view.specs.Run.{Run, Goes};
ghost use Rattle.avr_view.specs.View.{View, At};
ghost use Rattle.vg_templates.specs.Layouts.{IsLayout};
ghost use Rattle.vg_templates.specs.Frames.{Places, AllOutlive};
ghost use Rattle.vg_templates.specs.Pieces.{Sees};
ghost use Rattle.vg_templates.specs.Held.{Held, IsReady};
ghost use Rattle.vg_templates.specs.Outcomes.{Lies};
ghost use Rattle.vg_templates.specs.Returns.{returns_value, behind_call, CanLand, CanDrop, Returned};

/// Laws of results. From where the code of a return stands, with a procedure that has a caller and in which nothing waits, the run comes to where the
/// caller goes on, with the low bytes of the value in r22 to r25. And from there the code behind the call drops the arguments, and the result goes to
/// its local: the caller lies there in the state that linear code says.
pub fn results_come_back()
    ensures leave { (e : Run) (i : Places) → ((m : ℕ) → IsLayout (i.layouts m)) → (q : ℕ) (f : Frame State) (frames : List (Frame State))
        (live : ℕ → Bool) (s : State) (a : Operand) (count x pc : ℕ) (v : View) (t : MachineState) → count ≤ 4 → IsReady (i.layouts q) live a
        → value a s ≡ Some x → s.waiting ≡ [] → Held i q live s (f ∷ frames) v → AllStandAt e.flash pc (returns_value (i.layouts q) a count)
        → pc + widths (returns_value (i.layouts q) a count) < 65536 → At e pc v t → Goes e ⊥ 1 t (Returned e i q f frames count x s.ram v.out) }
    ensures arrive { (e : Run) (i : Places) → ((m : ℕ) → IsLayout (i.layouts m)) → (q m pc : ℕ) (kept : State) (call : Call)
        (frames : List (Frame State)) (count x : ℕ) (ram : List ℕ) (o : Outside) (at_once : Bool) (s : MachineState) → count ≤ 4
        → CanDrop (i.layouts m) at_once kept → CanLand (i.layouts m) (i.live m (suc pc)) count call.to
        → AllOutlive (i.layouts m) (i.live m) (Result call) pc
        → (let is = behind_call (i.layouts m) at_once (i.layouts q).pushed call.to in
        AllStandAt e.flash (i.behind m pc) is → i.behind m pc + widths is < 65536
        → Returned e i q (record { proc = m; pc = pc; kept = kept; awaits = Result call }) frames count x ram o s
        → Goes e ⊥ 0 s (Sees e (Lies i m (i.live m (suc pc)) (with_result call.to (low count x) (record kept { ram = ram })) frames o)
        (i.behind m pc + widths is))) }
{}
