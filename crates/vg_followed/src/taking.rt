// The law of values that are taken back.
ghost use Rattle.std.specs.Prelude.{ℕ, ◌≡◌, ◌≤◌, Bool, List, ◌∷◌};
ghost use Rattle.vg_lin.specs.Steps.{Frame};
ghost use Rattle.vg_lin.specs.State.{State, Waiting, sets};
ghost use Rattle.avr_view.specs.Run.{Run};
ghost use Rattle.avr_view.specs.View.{View};
ghost use Rattle.vg_templates.specs.Layouts.{IsLayout};
ghost use Rattle.vg_templates.specs.Frames.{Places};
ghost use Rattle.vg_templates.specs.Pieces.{Takes};
ghost use Rattle.vg_templates.specs.Held.{Held, IsSet};
ghost use Rattle.vg_templates.specs.Outcomes.{Lies};
ghost use Rattle.vg_templates.specs.Plains.{pops_value};

/// A law of the template that takes back the newest value that waits: its code leads to the state in which the local has got it, and it waits no more.
pub fn values_are_taken_back()
    ensures { (e : Run) (i : Places) → ((m : ℕ) → IsLayout (i.layouts m)) → (m : ℕ) (frames : List (Frame State)) (live behind : ℕ → Bool) (s : State)
        (x : Waiting) (xs : List Waiting) (to : ℕ) (v : View) → s.waiting ≡ x ∷ xs → x.width ≤ 4 → IsSet (i.layouts m) live behind to
        → Held i m live s frames v
        → Takes e ⊥ v (pops_value (i.layouts m) x.width to) (Lies i m behind (sets to x.value (record s { waiting = xs })) frames v.out) }
{}
