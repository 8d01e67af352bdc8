// The bytes of columns under numbers and under names.
ghost use Rattle.std.specs.Prelude.{◌≡◌, ℕ, List};
ghost use Rattle.vg_syntax.specs.Tree.{Node};
ghost use Rattle.vg_source.specs.Program.{source_of};
ghost use Rattle.vg_core.specs.declared.heap.Heap.{Heap};
ghost use Rattle.vg_core.specs.Naming.{named, named_heap, naming_of};
ghost use Rattle.vg_core.specs.Program.{Program};
ghost use Rattle.vg_core.specs.Typing.{WellTyped};
ghost use Rattle.vg_sound.specs.Good.{HasTypedHeap};
ghost use Rattle.vg_renamed.specs.NamesTell.{NamesTell};
ghost use Rattle.vg_live.specs.declared.live_set.LiveSet.{LiveSet};
ghost use Rattle.vg_live.specs.Sets.{IsLiveSet};
ghost use Rattle.vg_number.specs.Numbering.{kinds_of};
ghost use Rattle.vg_placement.specs.Columns.{static_bytes, table_bytes};
ghost use Rattle.vg_placement.specs.Needs.{needs};
ghost use Rattle.vg_static_source.specs.Sums.{AreTables, IsStatic};
ghost use Rattle.vg_written.specs.Written.{AreWritten};

/// A typed program, which under its names is that of a text and keeps the fields that the text declares, has columns in RAM of as many bytes as the text and
/// the heap need, and as many bytes of tables. The body is empty: its contract is a law of the definitions.
pub fn sums_under_names()
    ensures static_bytes { (texts : List (List ℕ)) (text : Node) (p : Program) → source_of text ≡ named (naming_of texts p.tables) p → WellTyped p
        → NamesTell (naming_of texts p.tables) p → AreWritten texts text p.tables → (h : Heap) → HasTypedHeap p.tables h
        → (s : LiveSet) → IsLiveSet p h s
        → IsStatic text (named_heap (naming_of texts p.tables) p.tables h) (static_bytes p.tables (needs p (kinds_of h) s) (kinds_of h)) }
    ensures table_bytes { (texts : List (List ℕ)) (text : Node) (p : Program) → source_of text ≡ named (naming_of texts p.tables) p → WellTyped p
        → NamesTell (naming_of texts p.tables) p → AreWritten texts text p.tables → (h : Heap) → HasTypedHeap p.tables h
        → (s : LiveSet) → IsLiveSet p h s
        → AreTables text (named_heap (naming_of texts p.tables) p.tables h) (table_bytes p.tables (needs p (kinds_of h) s) (kinds_of h)) }
{}
