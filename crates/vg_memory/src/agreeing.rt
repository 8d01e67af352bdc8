// The law of images that agree with a text.
ghost use Rattle.std.specs.Prelude.{ℕ, ◌≡◌, ◌+◌, List};
ghost use Rattle.avr_isa.specs.Agrees.{Agrees};
ghost use Rattle.avr_view.specs.Run.{Run};
ghost use Rattle.vg_meaning.specs.declared.event.Event.{Event};
ghost use Rattle.vg_syntax.specs.Tree.{Node};
ghost use Rattle.vg_source.specs.Peak.{costs, sessions};
ghost use Rattle.vg_source.specs.Program.{source_of};
ghost use Rattle.vg_core.specs.declared.heap.Heap.{Heap};
ghost use Rattle.vg_core.specs.Naming.{Naming, named_heap};
ghost use Rattle.vg_core.specs.Program.{Program};
ghost use Rattle.vg_core.specs.Typing.{WellTyped};
ghost use Rattle.vg_sound.specs.Good.{HasTypedHeap};
ghost use Rattle.vg_renamed.specs.IsNamed.{IsNamed};
ghost use Rattle.vg_memory.specs.Does.{DoesAsProgram};
ghost use Rattle.vg_memory.specs.Holds.{HoldsPeaks};
ghost use Rattle.vg_memory.specs.Whole.{with_whole};

/// A law of images. Where the machine does in a flash what a typed program does from its heap, or reaches below its floor where the calls that are active cost
/// more than the stack, the flash agrees with the sessions of the text for which the program stands, from the heap with names in place of numbers; so it does by
/// any costs of methods, and so many bytes beside them, where the stack holds what active calls cost by these. The body is empty: its contract is a law of the
/// definitions.
pub fn images_agree()
    ensures costs { (n : Naming) (p : Program) (text : Node) → IsNamed n p (source_of text) → WellTyped p → (h : Heap) → HasTypedHeap p.tables h
        → (e : Run) (stack : ℕ) → e.floor + stack ≡ 0x1100 → ((whole : List Event) → DoesAsProgram (with_whole e whole) 4 (costs text) p h)
        → Agrees (sessions text (named_heap n p.tables h)) e.flash e.floor stack }
    ensures held { (n : Naming) (p : Program) (text : Node) → IsNamed n p (source_of text) → WellTyped p → (h : Heap) → HasTypedHeap p.tables h
        → (e : Run) (stack extra : ℕ) (by_method : List ℕ) → ((whole : List Event) → DoesAsProgram (with_whole e whole) extra by_method p h)
        → HoldsPeaks e.floor extra by_method p h → Agrees (sessions text (named_heap n p.tables h)) e.flash e.floor stack }
{}
