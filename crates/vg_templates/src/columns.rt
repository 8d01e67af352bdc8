// The laws of loads and stores of columns in RAM.
ghost use Rattle.std.specs.Prelude.{ℕ, ◌≡◌, ◌+◌, ◌-◌, ◌<◌, ◌≤◌, Bool, List, length, Some};
ghost use Rattle.vg_lin.specs.declared.instr.Operand.{Operand};
ghost use Rattle.vg_lin.specs.Steps.{Frame};
ghost use Rattle.vg_lin.specs.State.{State, value, sets, number_at, with_number};
ghost use Rattle.avr_view.specs.Run.{Run};
ghost use Rattle.avr_view.specs.View.{View};
ghost use Rattle.vg_templates.specs.Layouts.{IsLayout};
ghost use Rattle.vg_templates.specs.Frames.{Places};
ghost use Rattle.vg_templates.specs.Pieces.{Takes};
ghost use Rattle.vg_templates.specs.Held.{Held, IsReady, IsSet};
ghost use Rattle.vg_templates.specs.Outcomes.{Lies, IsKept};
ghost use Rattle.vg_templates.specs.Accesses.{loads_column, stores_column};

/// Laws of the templates of loads and stores of columns in RAM, from a base address and an index on. Where the bytes make up a number, the code of the load
/// leads to the state in which the local has got it; and where they are within the columns, that of the store leads to the state in which they have got
/// the low bytes of the value.
pub fn columns_are_reached()
    ensures load { (e : Run) (i : Places) → ((m : ℕ) → IsLayout (i.layouts m)) → (m : ℕ) (frames : List (Frame State)) (live behind : ℕ → Bool)
        (s : State) (w to base : ℕ) (index : Operand) (x z : ℕ) (v : View) → 0 < w → w ≤ 4 → 0x100 ≤ base + x
        → IsReady (i.layouts m) live index → IsSet (i.layouts m) live behind to → value index s ≡ Some x
        → number_at s.ram w (base + x - 0x100) ≡ Some z → Held i m live s frames v
        → Takes e ⊥ v (loads_column (i.layouts m) w to base index) (Lies i m behind (sets to z s) frames v.out) }
    ensures store { (e : Run) (i : Places) → ((m : ℕ) → IsLayout (i.layouts m)) → (m : ℕ) (frames : List (Frame State)) (live behind : ℕ → Bool)
        (s : State) (w base : ℕ) (index from : Operand) (x y : ℕ) (v : View) → w ≤ 4 → 0x100 ≤ base + x
        → base + x - 0x100 + w ≤ length s.ram → IsReady (i.layouts m) live index → IsReady (i.layouts m) live from → IsKept live behind
        → value index s ≡ Some x → value from s ≡ Some y → Held i m live s frames v
        → Takes e ⊥ v (stores_column (i.layouts m) w base index from)
        (Lies i m behind (record s { ram = with_number s.ram w (base + x - 0x100) y }) frames v.out) }
{}
