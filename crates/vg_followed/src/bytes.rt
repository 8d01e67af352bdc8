// The law of products of two bytes.
ghost use Rattle.std.specs.Prelude.{ℕ, ◌≡◌, ◌*◌, Bool, List, Some};
ghost use Rattle.vg_lin.specs.declared.instr.Operand.{Operand};
ghost use Rattle.vg_lin.specs.Steps.{Frame};
ghost use Rattle.vg_lin.specs.State.{State, value, sets};
ghost use Rattle.vg_lin.specs.Values.{low};
ghost use Rattle.avr_view.specs.Run.{Run};
ghost use Rattle.avr_view.specs.View.{View};
ghost use Rattle.vg_templates.specs.Layouts.{IsLayout};
ghost use Rattle.vg_templates.specs.Frames.{Places};
ghost use Rattle.vg_templates.specs.Pieces.{Takes};
ghost use Rattle.vg_templates.specs.Held.{Held, IsReady, IsSet};
ghost use Rattle.vg_templates.specs.Outcomes.{Lies};
ghost use Rattle.vg_templates.specs.Products.{multiplies};

/// A law of the template of products: its code leads to the state in which the local has got the product of the low bytes of two values.
pub fn products_are_made()
    ensures { (e : Run) (i : Places) → ((m : ℕ) → IsLayout (i.layouts m)) → (m : ℕ) (frames : List (Frame State)) (live behind : ℕ → Bool) (s : State)
        (to : ℕ) (a b : Operand) (x y : ℕ) (v : View) → IsReady (i.layouts m) live a → IsReady (i.layouts m) live b → IsSet (i.layouts m) live behind to
        → value a s ≡ Some x → value b s ≡ Some y → Held i m live s frames v
        → Takes e ⊥ v (multiplies (i.layouts m) to a b) (Lies i m behind (sets to (low 1 x * low 1 y) s) frames v.out) }
{}
