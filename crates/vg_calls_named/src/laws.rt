// The calls of typed programs under their names.
ghost use Rattle.std.specs.Prelude.{◌≡◌, ◌<◌, ℕ, List, length, map, slice_get};
ghost use Rattle.std.specs.List.{AllByRecursion};
ghost use Rattle.vg_syntax.specs.Tree.{Node};
ghost use Rattle.vg_source.specs.Peak.{costs, cost_of};
ghost use Rattle.vg_source.specs.Program.{source_of};
ghost use Rattle.vg_core.specs.declared.heap.Heap.{Heap};
ghost use Rattle.vg_core.specs.declared.program.Tables.{Tables};
ghost use Rattle.vg_core.specs.Naming.{named, named_heap, naming_of};
ghost use Rattle.vg_core.specs.Program.{Program};
ghost use Rattle.vg_core.specs.Typing.{WellTyped};
ghost use Rattle.vg_sound.specs.Good.{HasTypedHeap};
ghost use Rattle.vg_renamed.specs.NamesTell.{NamesTell};
ghost use Rattle.vg_report.specs.Texts as report;
ghost use Rattle.vg_written.specs.Written.{AreWritten};
ghost use Rattle.vg_packed.specs.Uses.{Calls};
ghost use Rattle.vg_calls_source.specs.Graphs as graph;
ghost use Rattle.vg_calls_source.specs.Bounds as source;
ghost use Rattle.vg_calls_source.specs.Methods.{method_numbered, method_text, methods_of};
ghost use Rattle.vg_calls_packed.specs.Typed as typed;

/// A typed program, which under its names is that of a text and keeps the methods that the text declares, has the calls of the text: where the methods of
/// some way cost so much, so they do in the text; no cycle is reached in the text where none is; and a cycle that is reached is one of methods of the text.
/// The body is empty: its contract is a law of the definitions.
pub fn typed_calls_are_those_of_texts()
    ensures spent { (texts : List (List ℕ)) (text : Node) (p : Program) → source_of text ≡ named (naming_of texts p.tables) p → WellTyped p
        → NamesTell (naming_of texts p.tables) p → AreWritten texts text p.tables → (h : Heap) → HasTypedHeap p.tables h → (bytes : ℕ)
        → graph.IsSpent (typed.IsEntry p) (Calls p h) (cost_of (costs text)) bytes
        → source.IsSpent text (named_heap (naming_of texts p.tables) p.tables h) bytes }
    ensures none { (texts : List (List ℕ)) (text : Node) (p : Program) → source_of text ≡ named (naming_of texts p.tables) p → WellTyped p
        → NamesTell (naming_of texts p.tables) p → AreWritten texts text p.tables → (h : Heap) → HasTypedHeap p.tables h
        → typed.HasNoCycle p h → source.HasNoCycle text (named_heap (naming_of texts p.tables) p.tables h) }
    ensures cycle { (texts : List (List ℕ)) (text : Node) (p : Program) → source_of text ≡ named (naming_of texts p.tables) p → WellTyped p
        → NamesTell (naming_of texts p.tables) p → AreWritten texts text p.tables → (h : Heap) → HasTypedHeap p.tables h
        → (methods : List ℕ) → typed.IsCallCycle p h methods
        → source.IsCallCycle text (named_heap (naming_of texts p.tables) p.tables h) (map (method_numbered text) methods) }
    ensures there { (texts : List (List ℕ)) (text : Node) (p : Program) → source_of text ≡ named (naming_of texts p.tables) p → WellTyped p
        → NamesTell (naming_of texts p.tables) p → AreWritten texts text p.tables → (h : Heap) → HasTypedHeap p.tables h
        → (methods : List ℕ) → typed.IsCallCycle p h methods → AllByRecursion (λ k. k < length (methods_of text)) methods }
{}

/// The names that are told of methods of a text are theirs. The body is empty: its contract is a law of the definitions.
pub fn methods_are_told()
    ensures { (texts : List (List ℕ)) (text : Node) (p : Tables) → AreWritten texts text p → (methods : List ℕ)
        → AllByRecursion (λ k. k < length (methods_of text)) methods
        → map (λ k. report.method_text texts p (slice_get p.methods k)) methods ≡ map method_text (map (method_numbered text) methods) }
{}
