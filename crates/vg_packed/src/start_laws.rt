// The laws of the start.
ghost use Rattle.std.specs.Prelude.{◌≡◌, ℕ, false, Option, Some, slice_get, [], List, length};
ghost use Rattle.vg_meaning.specs.Shapes.{Fits};
ghost use Rattle.vg_meaning.specs.History.{Recorder};
ghost use Rattle.vg_meaning.specs.Outside.{AreReads};
ghost use Rattle.vg_meaning.specs.Safe.{Alike};
ghost use Rattle.vg_codes.specs.Codes.{Codes};
ghost use Rattle.vg_source.specs.Session.{running_world};
ghost use Rattle.vg_core.specs.declared.heap.Heap.{Heap};
ghost use Rattle.vg_core.specs.declared.member.Member.TheVariants.{Method};
ghost use Rattle.vg_core.specs.declared.program.Target.TheVariants.{Run};
ghost use Rattle.vg_core.specs.Program.{Body, Program, Signature, signature_of};
ghost use Rattle.vg_core.specs.Session.{running};
ghost use Rattle.vg_core.specs.Typing.{WellTyped, locals_of};
ghost use Rattle.vg_sound.specs.Good.{HasTypedHeap};
ghost use Rattle.vg_firm.specs.Program.{Program as FirmProgram};
ghost use Rattle.vg_firm.specs.Session as firm;
ghost use Rattle.vg_packing.specs.Layout.{Layout};
ghost use Rattle.vg_packing.specs.Allowed.{allowing};
ghost use Rattle.vg_packing.specs.Packs.{Holds};
ghost use Rattle.vg_packing.specs.Laid.{Laid};
ghost use Rattle.vg_live.specs.Rules.{Live};
ghost use Rattle.vg_packed.specs.Plain.{IsPlain, AreRanged};
ghost use Rattle.vg_packed.specs.IsOf.{IsOf};
ghost use Rattle.vg_packed.specs.IsPlaced.{IsPlaced};

/// The pass takes the body of each live method, where the layout is the one of the live set: each step that stands in it is allowed. The body
/// is empty: its contract is a law of the definitions, as those below.
pub fn live_bodies_fit()
    ensures { (p : Program) → WellTyped p → IsPlain p → (h : Heap) → HasTypedHeap p.tables h → (l : Layout) (k : Codes) (f : FirmProgram)
        → IsOf p h l k f → (m : ℕ) (g : Signature) (b : Body) → Live p h (Some (Method m)) → signature_of p.tables (Run m) ≡ Some g
        → slice_get p.methods m ≡ Some b → Fits (allowing p.tables l f (l.edges m) (locals_of g b) g.owner g.result) false b.code [] [] }
{}

/// The columns of the packed program hold the heap, where the layout is the one of the live set: what a kept place holds is a scalar in its
/// range, null, or live.
pub fn columns_hold_the_heap()
    ensures { (p : Program) → WellTyped p → (h : Heap) → HasTypedHeap p.tables h → AreRanged p.tables h → (l : Layout) (k : Codes) (f : FirmProgram)
        → IsOf p h l k f → Holds p.tables l k f h f.ram }
{}

/// The layout of a live set, with numbers by counting, columns, tables, codes and procedures, is laid.
pub fn live_layouts_are_laid()
    ensures { (p : Program) → WellTyped p → IsPlain p → (h : Heap) → HasTypedHeap p.tables h → (l : Layout) (k : Codes) (f : FirmProgram)
        → IsOf p h l k f → IsPlaced p l k f → Laid p l k f }
{}

/// From its initialised heap a program does what the program does to which it is packed, where the layout is the one of the live set: each
/// run ends for the same reason in the very same world, with the same trace, the same clock, and the same calls active behind each tick,
/// whatever the recorder, the interrupts, the limit of depth and the clock, and whatever bytes the devices give.
pub fn same_sessions<K>()
    ensures { (r : Recorder K) (p : Program) → WellTyped p → IsPlain p → (h : Heap) → HasTypedHeap p.tables h → AreRanged p.tables h
        → (l : Layout) (k : Codes) (f : FirmProgram) → IsOf p h l k f → IsPlaced p l k f
        → (history : K) (deepest : Option ℕ) (reads interrupts : List ℕ) (clock : ℕ) → AreReads reads
        → Alike (running r history p h deepest reads interrupts clock)
        (firm.running r k f (length interrupts) (firm.first_state f) (running_world history deepest reads interrupts clock)) }
{}
