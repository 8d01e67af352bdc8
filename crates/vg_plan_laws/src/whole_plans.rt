// The laws of whole plans.
ghost use Rattle.std.specs.Prelude.{ℕ, ◌≡◌, List, Some, map, true};
ghost use Rattle.vg_core.specs.declared.heap.Heap.{Heap};
ghost use Rattle.vg_core.specs.Program.{Program};
ghost use Rattle.vg_firm.specs.Session.{is_among};
ghost use Rattle.vg_live.specs.declared.live_set.LiveSet.{LiveSet};
ghost use Rattle.vg_number.specs.declared.numbers.Numbers.{Numbers};
ghost use Rattle.vg_pack_calls.specs.Cases.{cases_of};
ghost use Rattle.vg_packed.specs.Given.{IsGiven};
ghost use Rattle.vg_packed.specs.Plans.{planned, IsPlan};
ghost use Rattle.vg_place.specs.declared.placing.Columns.{Columns};
ghost use Rattle.vg_placement.specs.declared.column.Column.{Column};
ghost use Rattle.vg_plan.specs.declared.planning.Planned.{Planned};
ghost use Rattle.vg_plan.specs.Planned.{Plans};
ghost use Rattle.vg_plan_laws.specs.Stands.{StandsIn};
ghost use Rattle.vg_packed.specs.Uses.{Calls, HasDelegates};

/// Each method of which a live method or a live place makes a delegate may be the value of one, and a procedure names that of each method that
/// its own may call. The body is empty: its contract is a law of the definitions, as those below.
pub fn plans_name_all()
    ensures delegates { (p : Program) (h : Heap) (s : LiveSet) (n : Numbers) (c : Columns) (x : Planned) → IsGiven p h s n c
        → Plans p h s n c.list x → (m : ℕ) → HasDelegates p h m → (planned h n x.plan).numbering.bindable m ≡ true }
    ensures calls { (p : Program) (h : Heap) (s : LiveSet) (n : Numbers) (c : Columns) (x : Planned) → IsGiven p h s n c
        → Plans p h s n c.list x → (m k q : ℕ) → Calls p h m k → (planned h n x.plan).numbering.procedure k ≡ Some q
        → is_among ((planned h n x.plan).edges m) q ≡ true }
{}

/// What the code plans is a plan of what is live, where fields, elements and arrays stand as it says, and its dispatches are those of the plan.
pub fn plans_are_plans()
    ensures plan { (p : Program) (h : Heap) (s : LiveSet) (n : Numbers) (c : Columns) (x : Planned) → IsGiven p h s n c
        → Plans p h s n c.list x → StandsIn p h s n c x.plan → IsPlan p h s n c x.plan }
    ensures dispatches { (p : Program) (h : Heap) (s : LiveSet) (n : Numbers) (cs : List Column) (x : Planned) → (plans : Plans p h s n cs x)
        → x.dispatches ≡ map (cases_of p.tables n x.plan plans.own) x.plan.asked }
{}
