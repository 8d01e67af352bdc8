// The laws of delegates and calls.
ghost use Rattle.std.specs.Prelude.{ℕ, ◌≡◌, List, Some, true};
ghost use Rattle.vg_core.specs.declared.heap.Heap.{Heap};
ghost use Rattle.vg_core.specs.Program.{Program};
ghost use Rattle.vg_firm.specs.Session.{is_among};
ghost use Rattle.vg_live.specs.declared.live_set.LiveSet.{LiveSet};
ghost use Rattle.vg_live.specs.Sets.{IsLiveSet};
ghost use Rattle.vg_number.specs.declared.numbers.Numbers.{Numbers};
ghost use Rattle.vg_packed.specs.Plans.{planned};
ghost use Rattle.vg_placement.specs.declared.column.Column.{Column};
ghost use Rattle.vg_plan.specs.declared.planning.Planned.{Planned};
ghost use Rattle.vg_plan.specs.Planned.{Plans};
ghost use Rattle.vg_packed.specs.Uses.{Calls, HasDelegates};

/// A method may be the value of a delegate, and a procedure names another, only where a live method or a live place gives the reason. The body is
/// empty: its contract is a law of the definitions.
pub fn plans_name_no_more()
    ensures delegates { (p : Program) (h : Heap) (s : LiveSet) (n : Numbers) (cs : List Column) (x : Planned) → IsLiveSet p h s → Plans p h s n cs x
        → (m : ℕ) → (planned h n x.plan).numbering.bindable m ≡ true → HasDelegates p h m }
    ensures calls { (p : Program) (h : Heap) (s : LiveSet) (n : Numbers) (cs : List Column) (x : Planned) → IsLiveSet p h s → Plans p h s n cs x
        → (m q : ℕ) → is_among ((planned h n x.plan).edges m) q ≡ true
        → (k : ℕ) × Calls p h m k × ((planned h n x.plan).numbering.procedure k ≡ Some q) }
{}
