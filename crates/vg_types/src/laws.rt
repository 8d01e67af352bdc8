// What a typed program of a tree does is what the tree says.
ghost use Rattle.std.specs.Prelude.{◌≡◌, ◌≢◌, ℕ, List, Option, Some, None};
ghost use Rattle.vg_meaning.specs.Ending.{Deep};
ghost use Rattle.vg_syntax.specs.Tree.{Node};
ghost use Rattle.vg_source.specs.Program.{source_of};
ghost use Rattle.vg_source.specs.Session as source;
ghost use Rattle.vg_source.specs.Values as source_value;
ghost use Rattle.vg_core.specs.declared.heap.Heap.{Heap};
ghost use Rattle.vg_core.specs.Naming.{naming_of, named_heap};
ghost use Rattle.vg_core.specs.Program.{Program};
ghost use Rattle.vg_core.specs.Session.{started, session};
ghost use Rattle.vg_sound.specs.Good.{HasTypedHeap};
ghost use Rattle.vg_renamed.specs.Stands.{named_start};
ghost use Rattle.vg_types_named.specs.Programs.{IsProgramOf};

/// A typed program of a tree is initialised as the tree is: to the same heap, with names in place of numbers, or not, for the same reason.
pub fn initialised_alike()
    ensures { (texts : List (List ℕ)) (tree : Node) (p : Program) → IsProgramOf texts tree p → (clock : ℕ)
        → named_start (naming_of texts p.tables) p.tables (started p clock) ≡ source.started (source_of tree) clock }
{}

/// Its sessions from a typed heap are those of the tree: the same trace and ending, and the same calls active behind each tick.
pub fn sessions_alike()
    ensures { (texts : List (List ℕ)) (tree : Node) (p : Program) → IsProgramOf texts tree p → (h : Heap) → HasTypedHeap p.tables h
        → (deepest : Option ℕ) (reads interrupts : List ℕ) (clock : ℕ)
        → session p h deepest reads interrupts clock
        ≡ source.session (source_of tree) (named_heap (naming_of texts p.tables) p.tables h) deepest reads interrupts clock }
{}

/// Where a tree has a typed program and is initialised, each of its sessions has an ending, and without a limit on active calls none is too deep.
pub fn texts_end()
    ensures ends { (texts : List (List ℕ)) (tree : Node) (p : Program) → IsProgramOf texts tree p → (c : ℕ) (heap : source_value.Heap)
        → source.started (source_of tree) c ≡ source.Started heap → (deepest : Option ℕ) (reads interrupts : List ℕ) (clock : ℕ)
        → (source.session (source_of tree) heap deepest reads interrupts clock).ending ≢ None }
    ensures not_deep { (texts : List (List ℕ)) (tree : Node) (p : Program) → IsProgramOf texts tree p → (c : ℕ) (heap : source_value.Heap)
        → source.started (source_of tree) c ≡ source.Started heap → (reads interrupts : List ℕ) (clock : ℕ)
        → (source.session (source_of tree) heap None reads interrupts clock).ending ≢ Some Deep }
{}
