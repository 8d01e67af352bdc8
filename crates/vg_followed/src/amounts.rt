// The laws of shifts.
ghost use Rattle.std.specs.Prelude.{ℕ, ◌≡◌, ◌<◌, ◌≤◌, ◌+◌, Bool, List, Some};
ghost use Rattle.vg_lin.specs.declared.instr.Operand.{Operand};
ghost use Rattle.vg_lin.specs.declared.instr.Operand.TheVariants.{Local};
ghost use Rattle.vg_lin.specs.declared.instr.Operator.TheVariants.{ShiftLeft, ShiftRight};
ghost use Rattle.vg_lin.specs.Steps.{Frame};
ghost use Rattle.vg_lin.specs.State.{State, value, sets};
ghost use Rattle.vg_lin.specs.Values.{computed};
ghost use Rattle.avr_isa.specs.Machine.{State as MachineState};
ghost use Rattle.avr_isa.specs.Standing.{widths, AllStandAt};
ghost use Rattle.avr_view.specs.Run.{Run, Goes};
ghost use Rattle.avr_view.specs.View.{View, At};
ghost use Rattle.vg_templates.specs.Layouts.{IsLayout};
ghost use Rattle.vg_templates.specs.Frames.{Places};
ghost use Rattle.vg_templates.specs.Pieces.{Sees, Takes};
ghost use Rattle.vg_templates.specs.Held.{Held, IsReady, IsSet};
ghost use Rattle.vg_templates.specs.Outcomes.{Lies};
ghost use Rattle.vg_templates.specs.Shifts.{shifts_left, shifts_right};
ghost use Rattle.vg_templates.specs.Amounts.{shifts_left_by, shifts_right_by};

/// Laws of the templates of shifts, of one to four bytes: their code leads to the state in which the local has got what the operator computes, also where
/// the amount is as large as the number of bits, or larger. Where the amount stands in a local, the code is a loop, which comes to its end.
pub fn shifts_are_made()
    ensures left { (e : Run) (i : Places) → ((m : ℕ) → IsLayout (i.layouts m)) → (m : ℕ) (frames : List (Frame State)) (live behind : ℕ → Bool)
        (s : State) (w to : ℕ) (a : Operand) (n x z : ℕ) (v : View) → w ≤ 4 → IsReady (i.layouts m) live a → IsSet (i.layouts m) live behind to
        → value a s ≡ Some x → computed ShiftLeft w x n ≡ Some z → Held i m live s frames v
        → Takes e ⊥ v (shifts_left (i.layouts m) w to a n) (Lies i m behind (sets to z s) frames v.out) }
    ensures right { (e : Run) (i : Places) → ((m : ℕ) → IsLayout (i.layouts m)) → (m : ℕ) (frames : List (Frame State)) (live behind : ℕ → Bool)
        (s : State) (w to : ℕ) (a : Operand) (n x z : ℕ) (v : View) → w ≤ 4 → IsReady (i.layouts m) live a → IsSet (i.layouts m) live behind to
        → value a s ≡ Some x → computed ShiftRight w x n ≡ Some z → Held i m live s frames v
        → Takes e ⊥ v (shifts_right (i.layouts m) w to a n) (Lies i m behind (sets to z s) frames v.out) }
    ensures left_by { (e : Run) (i : Places) → ((m : ℕ) → IsLayout (i.layouts m)) → (m : ℕ) (frames : List (Frame State)) (live behind : ℕ → Bool)
        (s : State) (w to : ℕ) (a : Operand) (k x y z : ℕ) (v : View) → w ≤ 4 → IsReady (i.layouts m) live a → IsReady (i.layouts m) live (Local k)
        → IsSet (i.layouts m) live behind to → value a s ≡ Some x → value (Local k) s ≡ Some y → computed ShiftLeft w x y ≡ Some z
        → Held i m live s frames v → (pc : ℕ) (from : MachineState) → AllStandAt e.flash pc (shifts_left_by (i.layouts m) w to a k)
        → pc + widths (shifts_left_by (i.layouts m) w to a k) < 65536 → At e pc v from
        → Goes e ⊥ 1 from (Sees e (Lies i m behind (sets to z s) frames v.out) (pc + widths (shifts_left_by (i.layouts m) w to a k))) }
    ensures right_by { (e : Run) (i : Places) → ((m : ℕ) → IsLayout (i.layouts m)) → (m : ℕ) (frames : List (Frame State)) (live behind : ℕ → Bool)
        (s : State) (w to : ℕ) (a : Operand) (k x y z : ℕ) (v : View) → w ≤ 4 → IsReady (i.layouts m) live a → IsReady (i.layouts m) live (Local k)
        → IsSet (i.layouts m) live behind to → value a s ≡ Some x → value (Local k) s ≡ Some y → computed ShiftRight w x y ≡ Some z
        → Held i m live s frames v → (pc : ℕ) (from : MachineState) → AllStandAt e.flash pc (shifts_right_by (i.layouts m) w to a k)
        → pc + widths (shifts_right_by (i.layouts m) w to a k) < 65536 → At e pc v from
        → Goes e ⊥ 1 from (Sees e (Lies i m behind (sets to z s) frames v.out) (pc + widths (shifts_right_by (i.layouts m) w to a k))) }
{}
