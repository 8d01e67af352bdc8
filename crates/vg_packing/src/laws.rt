// The law of the pass.
ghost use Rattle.std.specs.Prelude.{ℕ, List, length, Option};
ghost use Rattle.vg_meaning.specs.History.{Recorder};
ghost use Rattle.vg_meaning.specs.Outside.{AreReads};
ghost use Rattle.vg_meaning.specs.Safe.{Alike};
ghost use Rattle.vg_codes.specs.Codes.{Codes};
ghost use Rattle.vg_source.specs.Session.{running_world};
ghost use Rattle.vg_core.specs.declared.heap.Heap.{Heap};
ghost use Rattle.vg_core.specs.Program.{Program};
ghost use Rattle.vg_core.specs.Session.{running};
ghost use Rattle.vg_core.specs.Typing.{WellTyped};
ghost use Rattle.vg_sound.specs.Good.{HasTypedHeap};
ghost use Rattle.vg_firm.specs.Program.{Program as FirmProgram};
ghost use Rattle.vg_firm.specs.Session as firm;
ghost use Rattle.vg_packing.specs.Layout.{Layout};
ghost use Rattle.vg_packing.specs.Packs.{Holds};
ghost use Rattle.vg_packing.specs.Laid.{Laid};

/// A run of a well typed program from a heap, and the run of what it is packed to from columns that hold this heap, end for the same reason
/// in the very same world: the same trace, the same clock, the same calls active behind each tick. Device reads are bytes. The body is
/// empty: its contract is a law of the definitions.
pub fn packed_runs<H>()
    ensures { (r : Recorder H) (p : Program) (l : Layout) (k : Codes) (f : FirmProgram) → WellTyped p → Laid p l k f
        → (h : Heap) → HasTypedHeap p.tables h → Holds p.tables l k f h f.ram
        → (history : H) (deepest : Option ℕ) (reads interrupts : List ℕ) (clock : ℕ) → AreReads reads
        → Alike (running r history p h deepest reads interrupts clock)
        (firm.running r k f (length interrupts) (firm.first_state f) (running_world history deepest reads interrupts clock)) }
{}
