// The law of dispatches.
ghost use Rattle.std.specs.Prelude.{ℕ, ◌≡◌, ◌+◌, ◌<◌, Bool, List, Some};
ghost use Rattle.avr_isa.specs.Machine.{State as MachineState};
ghost use Rattle.avr_isa.specs.Standing.{widths, AllStandAt};
ghost use Rattle.vg_codes.specs.declared.case.Case.{Case};
ghost use Rattle.vg_codes.specs.Dispatch.{procedure_for};
ghost use Rattle.vg_lin.specs.declared.instr.Operand.{Operand};
ghost use Rattle.vg_lin.specs.Steps.{Frame};
ghost use Rattle.vg_lin.specs.State.{State, value, sets};
ghost use Rattle.avr_view.specs.Run.{Run, Goes};
ghost use Rattle.avr_view.specs.View.{View, At};
ghost use Rattle.vg_templates.specs.Layouts.{IsLayout};
ghost use Rattle.vg_templates.specs.Frames.{Places};
ghost use Rattle.vg_templates.specs.Pieces.{Sees};
ghost use Rattle.vg_templates.specs.Held.{Held, IsReady, IsSet};
ghost use Rattle.vg_templates.specs.Outcomes.{Lies};
ghost use Rattle.vg_templates.specs.Lookups.{finds_procedure};
ghost use Rattle.vg_followed.specs.Tables.{AreCases};

/// A law of the template of dispatches: where the cases have a procedure for the number of an object, the code leads to the state in which the local has
/// got the code number of it.
pub fn procedures_are_found()
    ensures { (e : Run) (i : Places) → ((m : ℕ) → IsLayout (i.layouts m)) → (m : ℕ) (frames : List (Frame State)) (codes : ℕ → ℕ) (cases : List Case)
        (live behind : ℕ → Bool) (s : State) (to : ℕ) (a : Operand) (n q pc : ℕ) (v : View) (t : MachineState) → AreCases codes cases
        → IsReady (i.layouts m) live a → IsSet (i.layouts m) live behind to → value a s ≡ Some n → procedure_for cases n ≡ Some q
        → Held i m live s frames v → AllStandAt e.flash pc (finds_procedure (i.layouts m) codes cases to a)
        → pc + widths (finds_procedure (i.layouts m) codes cases to a) < 65536 → At e pc v t
        → Goes e ⊥ 1 t (Sees e (Lies i m behind (sets to (codes q) s) frames v.out) (pc + widths (finds_procedure (i.layouts m) codes cases to a))) }
{}
