// The law of operands that are found where they are.
ghost use Rattle.std.specs.Prelude.{ℕ, ◌≡◌, ◌+◌, ◌≤◌, Bool, List, Some};
ghost use Rattle.vg_lin.specs.declared.instr.Operand.{Operand};
ghost use Rattle.vg_lin.specs.Steps.{Frame};
ghost use Rattle.vg_lin.specs.State.{State, value};
ghost use Rattle.avr_view.specs.Run.{Run};
ghost use Rattle.avr_view.specs.View.{View};
ghost use Rattle.vg_templates.specs.Layouts.{IsLayout};
ghost use Rattle.vg_templates.specs.Frames.{Places};
ghost use Rattle.vg_templates.specs.Pieces.{Takes};
ghost use Rattle.vg_templates.specs.Held.{Held, IsReady};
ghost use Rattle.vg_templates.specs.Operands.{finds, found_in};
ghost use Rattle.vg_templates.specs.Outcomes.{Found};

/// A law of operands: the low bytes of each operand are found in a list of registers. No code is needed for the locals in registers, and none for bytes
/// that are zeros; what lies in the frame, and other known bytes, come into scratch registers from r18 to r27.
pub fn operands_are_found()
    ensures { (e : Run) (i : Places) → ((m : ℕ) → IsLayout (i.layouts m)) → (m : ℕ) (frames : List (Frame State)) (live : ℕ → Bool) (s : State)
        (a : Operand) (d count x : ℕ) (v : View) → IsReady (i.layouts m) live a → value a s ≡ Some x → 18 ≤ d → d + count ≤ 28
        → Held i m live s frames v
        → Takes e ⊥ v (finds (i.layouts m) a d count) (Found i m live s frames d count x (found_in (i.layouts m) a d count) v) }
{}
