// The law of loads from tables in flash.
ghost use Rattle.std.specs.Prelude.{ℕ, ◌≡◌, ◌+◌, ◌-◌, ◌<◌, ◌≤◌, Bool, List, Some};
ghost use Rattle.vg_lin.specs.declared.instr.Memory.TheVariants.{Flash};
ghost use Rattle.vg_lin.specs.declared.instr.Operand.{Operand};
ghost use Rattle.vg_lin.specs.Steps.{Frame};
ghost use Rattle.vg_lin.specs.State.{State, value, sets, number_at, first_address};
ghost use Rattle.avr_view.specs.Run.{Run};
ghost use Rattle.avr_view.specs.View.{View};
ghost use Rattle.vg_templates.specs.Layouts.{IsLayout};
ghost use Rattle.vg_templates.specs.Frames.{Places};
ghost use Rattle.vg_templates.specs.Pieces.{Takes};
ghost use Rattle.vg_templates.specs.Held.{Held, IsReady, IsSet};
ghost use Rattle.vg_templates.specs.Outcomes.{Lies};
ghost use Rattle.vg_templates.specs.Lookups.{loads_table};
ghost use Rattle.vg_followed.specs.Tables.{HoldsTables};

/// A law of the template of loads from flash, from a base address and an index on: where the flash holds the tables, and the bytes make up a number, its
/// code leads to the state in which the local has got it.
pub fn tables_are_read()
    ensures { (e : Run) (i : Places) → ((m : ℕ) → IsLayout (i.layouts m)) → (m : ℕ) (frames : List (Frame State)) (tables : List ℕ)
        (live behind : ℕ → Bool) (s : State) (w to base : ℕ) (index : Operand) (x z : ℕ) (v : View) → HoldsTables e.flash tables → 0 < w → w ≤ 4
        → first_address Flash ≤ base + x → IsReady (i.layouts m) live index → IsSet (i.layouts m) live behind to → value index s ≡ Some x
        → number_at tables w (base + x - first_address Flash) ≡ Some z → Held i m live s frames v
        → Takes e ⊥ v (loads_table (i.layouts m) w to base index) (Lies i m behind (sets to z s) frames v.out) }
{}
