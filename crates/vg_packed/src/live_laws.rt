// The laws of what is live in a layout.
ghost use Rattle.std.specs.Prelude.{◌≡◌, ◌<◌, ℕ, Bool, true, List, get_or, Some, slice_get};
ghost use Rattle.vg_core.specs.declared.heap.Heap.{Heap};
ghost use Rattle.vg_core.specs.declared.member.Member.TheVariants.{Cell, Field};
ghost use Rattle.vg_core.specs.declared.program.Field as tables;
ghost use Rattle.vg_core.specs.declared.program.Owner.TheVariants.{InClass, InComponent};
ghost use Rattle.vg_core.specs.declared.program.Tables.{Tables};
ghost use Rattle.vg_core.specs.Heap.{Kind, ObjectOf};
ghost use Rattle.vg_core.specs.Program.{Program};
ghost use Rattle.vg_core.specs.Tables.{is_below};
ghost use Rattle.vg_core.specs.Typing.{WellFormed};
ghost use Rattle.vg_firm.specs.declared.step.Home.{Home};
ghost use Rattle.vg_live.specs.declared.live_set.LiveSet.{LiveSet};
ghost use Rattle.vg_live.specs.Rules.{Live};
ghost use Rattle.vg_live.specs.Sets.{IsLiveSet};
ghost use Rattle.vg_numbers.specs.Numbers.{AreChains};
ghost use Rattle.vg_number.specs.declared.numbers.Numbers.{Numbers};
ghost use Rattle.vg_number.specs.Numbering.{kept_in, kinds_of, IsNumbering};
ghost use Rattle.vg_placement.specs.declared.column.Column.{Column};
ghost use Rattle.vg_placement.specs.declared.column.Held.TheVariants.{Field as TheField};
ghost use Rattle.vg_placement.specs.Columns.{all_columns, column_width, placed};
ghost use Rattle.vg_placement.specs.Needs.{needs};
ghost use Rattle.vg_packed.specs.Apart.{held_in};
ghost use Rattle.vg_packed.specs.Counted.{IsCounted};
ghost use Rattle.vg_pack_code.specs.declared.plan.Plan.{Plan};
ghost use Rattle.vg_pack_code.specs.Plans.{layout_by};
ghost use Rattle.vg_packed.specs.Columns.{HaveField};

/// A layout of the numbers that were counted numbers its cells by counting. The body is empty: its contract is a law of the definitions, as
/// those below.
pub fn layouts_are_counted()
    ensures { (p : Tables) (κ : List Kind) (kept : ℕ → Bool) (n : Numbers) (x : Plan) → IsNumbering p κ kept n
        → IsCounted p (layout_by κ n x) kept }
{}

/// A cell has a number exactly where it is live.
pub fn live_cells_have_numbers()
    ensures have { (p : Program) (h : Heap) (s : LiveSet) (n : Numbers) → IsLiveSet p h s → IsNumbering p.tables (kinds_of h) (kept_in s) n
        → (j : ℕ) → Live p h (Some (Cell j)) → 0 < get_or n.of_cell j 0 }
    ensures alone { (p : Program) (h : Heap) (s : LiveSet) (n : Numbers) → IsLiveSet p h s → IsNumbering p.tables (kinds_of h) (kept_in s) n
        → (j : ℕ) → 0 < get_or n.of_cell j 0 → Live p h (Some (Cell j)) }
{}

/// A live field of a component has a column, and so has a live field of a class where a kept object has the field, if values of its type have
/// bytes; a field that has a column is live.
pub fn live_fields_have_columns()
    ensures component { (p : Program) (h : Heap) (s : LiveSet) → IsLiveSet p h s → (f k : ℕ) (y : tables.Field)
        → slice_get p.tables.fields f ≡ Some y → y.owner ≡ InComponent k → 0 < column_width y.type_ → Live p h (Some (Field f))
        → HaveField f (all_columns p.tables (needs p (kinds_of h) s) (kinds_of h)) }
    ensures class { (p : Program) (h : Heap) (s : LiveSet) → IsLiveSet p h s → WellFormed p.tables → AreChains p.tables → (f j c d : ℕ)
        (y : tables.Field) → slice_get p.tables.fields f ≡ Some y → y.owner ≡ InClass c → 0 < column_width y.type_
        → slice_get (kinds_of h) j ≡ Some (ObjectOf d) → kept_in s j ≡ true → is_below p.tables d c ≡ true → Live p h (Some (Field f))
        → HaveField f (all_columns p.tables (needs p (kinds_of h) s) (kinds_of h)) }
    ensures alone { (p : Program) (h : Heap) (s : LiveSet) → IsLiveSet p h s → (f : ℕ)
        → HaveField f (all_columns p.tables (needs p (kinds_of h) s) (kinds_of h)) → Live p h (Some (Field f)) }
{}

/// Columns that are placed hold the fields that they held before, each at a place of the list; and those of one home hold no others.
pub fn placed_columns_hold_the_same()
    ensures placed { (f ram flash : ℕ) (cs : List Column) → HaveField f cs → HaveField f (placed ram flash cs) }
    ensures alone { (f ram flash : ℕ) (cs : List Column) → HaveField f (placed ram flash cs) → HaveField f cs }
    ensures at { (f : ℕ) (cs : List Column) → HaveField f cs → (i : ℕ) × (c : Column) × (slice_get cs i ≡ Some c) × (c.what ≡ TheField f) }
    ensures home { (f i : ℕ) (home : Home) (cs : List Column) → slice_get (held_in home cs) i ≡ Some (TheField f) → HaveField f cs }
{}
