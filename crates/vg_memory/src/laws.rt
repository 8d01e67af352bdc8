// The law of memory.
ghost use Rattle.std.specs.Prelude.{ℕ, suc, ◌≡◌, ◌⊎◌, true, List};
ghost use Rattle.avr_isa.specs.Agrees.{NeverReaches};
ghost use Rattle.avr_view.specs.Run.{Run};
ghost use Rattle.vg_meaning.specs.declared.event.Event.{Event};
ghost use Rattle.vg_syntax.specs.Tree.{Node};
ghost use Rattle.vg_source.specs.Program.{source_of};
ghost use Rattle.vg_core.specs.declared.heap.Heap.{Heap};
ghost use Rattle.vg_core.specs.Naming.{Naming};
ghost use Rattle.vg_core.specs.Program.{Program};
ghost use Rattle.vg_core.specs.Typing.{WellTyped};
ghost use Rattle.vg_sound.specs.Good.{HasTypedHeap};
ghost use Rattle.vg_renamed.specs.IsNamed.{IsNamed};
ghost use Rattle.vg_memory.specs.Does.{DoesAsProgram};
ghost use Rattle.vg_memory.specs.Whole.{with_whole};
ghost use Rattle.vg_memory.specs.Holds.{HoldsPeaks};
ghost use Rattle.vg_memory.specs.Memory.{KeepsMemory};

/// A law of images. Where the machine does in a flash what a typed program does from its heap, or reaches below its floor where the calls that are active cost
/// more than the stack, then in each run each store to SRAM falls in the static area, or above SP and at the floor or above, and interrupts are enabled only at
/// the word address of the idle SLEEP and at the next one, as long as the machine is going and its stack is at the floor or above. The body is empty: its
/// contract is a law of the definitions.
pub fn images_keep_memory()
    ensures { (n : Naming) (p : Program) (text : Node) → IsNamed n p (source_of text) → WellTyped p → (h : Heap) → HasTypedHeap p.tables h
        → (e : Run) (extra : ℕ) (costs : List ℕ) (idle : ℕ) → ((a : ℕ) → e.lets_in a ≡ true → (a ≡ idle) ⊎ (a ≡ suc idle))
        → ((whole : List Event) → DoesAsProgram (with_whole e whole) extra costs p h) → KeepsMemory e.flash e.static e.floor idle }
{}

/// A law of images. Where the machine does in a flash what a typed program does from its heap, or reaches below its floor where the calls that are active cost
/// more than the stack, and the stack holds what active calls cost in each run of the program, no run of the machine brings its stack below the floor. The body
/// is empty: its contract is a law of the definitions.
pub fn images_never_reach()
    ensures { (n : Naming) (p : Program) (text : Node) → IsNamed n p (source_of text) → WellTyped p → (h : Heap) → HasTypedHeap p.tables h
        → (e : Run) (extra : ℕ) (costs : List ℕ) → ((whole : List Event) → DoesAsProgram (with_whole e whole) extra costs p h) → HoldsPeaks e.floor extra costs p h
        → NeverReaches e.flash e.floor }
{}
