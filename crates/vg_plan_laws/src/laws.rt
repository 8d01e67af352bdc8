// The laws of plans.
ghost use Rattle.std.specs.Prelude.{◌≡◌, List, Some, length};
ghost use Rattle.vg_codes.specs.Codes.{Codes};
ghost use Rattle.vg_coded.specs.Numbers.{coded};
ghost use Rattle.vg_core.specs.declared.heap.Heap.{Heap};
ghost use Rattle.vg_core.specs.declared.value.CoreValue.{CoreValue};
ghost use Rattle.vg_core.specs.Heap.{Place, value_at};
ghost use Rattle.vg_core.specs.Program.{Program};
ghost use Rattle.vg_firm.specs.declared.step.ArrayPlace.{ArrayPlace};
ghost use Rattle.vg_firm.specs.declared.step.Home.TheVariants.{Ram};
ghost use Rattle.vg_firm.specs.Meaning.{entry};
ghost use Rattle.vg_live.specs.declared.live_set.LiveSet.{LiveSet};
ghost use Rattle.vg_number.specs.declared.numbers.Numbers.{Numbers};
ghost use Rattle.vg_number.specs.Numbering.{kept_in, kinds_of};
ghost use Rattle.vg_pack_calls.specs.Asked.{steps_from};
ghost use Rattle.vg_pack_code.specs.declared.plan.Plan.{Plan};
ghost use Rattle.vg_pack_values.specs.Columns.{blank_rows, numbers_in};
ghost use Rattle.vg_pack_values.specs.Places.{all_places, with_places};
ghost use Rattle.vg_packing.specs.Layout.{Spot, spot};
ghost use Rattle.vg_packing.specs.Packs.{IsKeptPlace};
ghost use Rattle.vg_place.specs.declared.placing.Columns.{Columns};
ghost use Rattle.vg_plan.specs.Planned.{HasTables};
ghost use Rattle.vg_plan_columns.specs.Arrays.{AreRows, Fit, tables_of};
ghost use Rattle.vg_packed.specs.Given.{IsGiven};
ghost use Rattle.vg_packed.specs.Plans.{planned};
ghost use Rattle.vg_plan_laws.specs.Stands.{AreTabled, StandsIn};

/// Fields, elements and arrays stand in the columns and tables where the plan has them. The body is empty: its contract is a law of the
/// definitions, as those below.
pub fn columns_are_planned()
    ensures columns { (p : Program) (h : Heap) (s : LiveSet) (n : Numbers) (c : Columns) (x : Plan) → IsGiven p h s n c
        → HasTables p.tables (kinds_of h) s c.list (steps_from p 0 s.methods) x → StandsIn p h s n c x }
    ensures tables { (p : Program) (h : Heap) (s : LiveSet) (n : Numbers) (c : Columns) (x : Plan) → IsGiven p h s n c
        → HasTables p.tables (kinds_of h) s c.list (steps_from p 0 s.methods) x → (rows : List (List ArrayPlace))
        → AreRows (kinds_of h) (kept_in s) x.items (length (kinds_of h)) rows → AreTabled h n x (tables_of rows c.list) }
    ensures addresses { (p : Program) (h : Heap) (s : LiveSet) (n : Numbers) (c : Columns) (x : Plan) → IsGiven p h s n c
        → HasTables p.tables (kinds_of h) s c.list (steps_from p 0 s.methods) x → Fit (kinds_of h) (kept_in s) x.items }
    ensures values { (p : Program) (h : Heap) (s : LiveSet) (n : Numbers) (c : Columns) (x : Plan) → IsGiven p h s n c → StandsIn p h s n c x
        → (k : Codes) (y : Place) (o : Spot) (v : CoreValue) → IsKeptPlace (planned h n x) y → spot p.tables (planned h n x) y ≡ Some o
        → value_at p.tables h y ≡ Some v → (o.home ≡ Ram)
        × (entry (with_places p.tables h (planned h n x) k (all_places p.tables h n) (numbers_in k (blank_rows c.list))) o.column o.index
        ≡ Some (coded (planned h n x).numbering k v)) }
{}
