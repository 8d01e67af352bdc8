// The laws of operands and locals of linear code.
ghost use Rattle.std.specs.Prelude.{ℕ, ◌≡◌, ◌+◌, ◌≤◌, Bool, List, Some};
ghost use Rattle.vg_lin.specs.declared.instr.Operand.{Operand};
ghost use Rattle.vg_lin.specs.Steps.{Frame};
ghost use Rattle.vg_lin.specs.State.{State, value, sets};
ghost use Rattle.avr_view.specs.Run.{Run};
ghost use Rattle.avr_view.specs.View.{View};
ghost use Rattle.vg_templates.specs.Spots.{number};
ghost use Rattle.vg_templates.specs.Layouts.{IsLayout};
ghost use Rattle.vg_templates.specs.Frames.{Places};
ghost use Rattle.vg_templates.specs.Pieces.{Takes};
ghost use Rattle.vg_templates.specs.Held.{Held, IsReady, IsSet, brings, gives, Brought, Given};

/// A law of operands: where a procedure of linear code lies in what the code sees, the low bytes of an operand come into scratch registers, from r18
/// to r27, and the procedure lies as before.
pub fn operands_come()
    ensures { (e : Run) (i : Places) → ((m : ℕ) → IsLayout (i.layouts m)) → (m : ℕ) (frames : List (Frame State)) (live : ℕ → Bool) (s : State)
        (a : Operand) (d count x : ℕ) (v : View) → IsReady (i.layouts m) live a → value a s ≡ Some x → 18 ≤ d → d + count ≤ 28
        → Held i m live s frames v → Takes e ⊥ v (brings (i.layouts m) a d count) (Brought i m live s frames d count x v) }
{}

/// A law of locals: where a number is in scratch registers, from r18 to r27, it goes to a local, and the procedure lies there in the state in which
/// this local has got it.
pub fn locals_are_set()
    ensures { (e : Run) (i : Places) → ((m : ℕ) → IsLayout (i.layouts m)) → (m : ℕ) (frames : List (Frame State)) (live behind : ℕ → Bool) (s : State)
        (to r count : ℕ) (v : View) → IsSet (i.layouts m) live behind to → 18 ≤ r → r + count ≤ 28 → Held i m live s frames v
        → Takes e ⊥ v (gives (i.layouts m) to r count) (Given i m behind (sets to (number v.regs r count) s) frames v) }
{}
