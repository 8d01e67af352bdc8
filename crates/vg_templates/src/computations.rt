// The law of computations that work byte by byte.
ghost use Rattle.std.specs.Prelude.{ℕ, ◌≡◌, ◌<◌, Bool, List, Some};
ghost use Rattle.vg_lin.specs.declared.instr.Computation.{Computation};
ghost use Rattle.vg_lin.specs.Steps.{Frame};
ghost use Rattle.vg_lin.specs.State.{State, value, sets};
ghost use Rattle.vg_lin.specs.Values.{computed};
ghost use Rattle.avr_view.specs.Run.{Run};
ghost use Rattle.avr_view.specs.View.{View};
ghost use Rattle.vg_templates.specs.Layouts.{IsLayout, width_of};
ghost use Rattle.vg_templates.specs.Frames.{Places};
ghost use Rattle.vg_templates.specs.Pieces.{Takes};
ghost use Rattle.vg_templates.specs.Held.{Held, IsReady, IsSet};
ghost use Rattle.vg_templates.specs.Outcomes.{Lies};
ghost use Rattle.vg_templates.specs.Plain.{IsBytewise, computes};

/// A law of the template of a computation, for sums, differences and logic of one to four bytes: its code leads to the state in which the local has got
/// what the operator computes. It works on no more bytes than the local has.
pub fn computations_are_made()
    ensures { (e : Run) (i : Places) → ((m : ℕ) → IsLayout (i.layouts m)) → (m : ℕ) (frames : List (Frame State)) (live behind : ℕ → Bool) (s : State)
        (c : Computation) (x y z : ℕ) (v : View) → IsBytewise c.operator → 0 < c.width → 0 < width_of (i.layouts m) c.to
        → IsReady (i.layouts m) live c.left → IsReady (i.layouts m) live c.right → IsSet (i.layouts m) live behind c.to
        → value c.left s ≡ Some x → value c.right s ≡ Some y → computed c.operator c.width x y ≡ Some z → Held i m live s frames v
        → Takes e ⊥ v (computes (i.layouts m) c) (Lies i m behind (sets c.to z s) frames v.out) }
{}
