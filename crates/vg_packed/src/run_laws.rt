// The laws of packed programs.
ghost use Rattle.std.specs.Prelude.{◌≡◌, ℕ, List, length, Option};
ghost use Rattle.vg_meaning.specs.History.{Recorder};
ghost use Rattle.vg_meaning.specs.Outside.{AreReads};
ghost use Rattle.vg_meaning.specs.Safe.{Alike};
ghost use Rattle.vg_codes.specs.Codes.{Codes, AreCodes};
ghost use Rattle.vg_source.specs.Session.{running_world};
ghost use Rattle.vg_core.specs.declared.heap.Heap.{Heap};
ghost use Rattle.vg_core.specs.Program.{Program};
ghost use Rattle.vg_core.specs.Session.{running};
ghost use Rattle.vg_firm.specs.Session as firm;
ghost use Rattle.vg_live.specs.declared.live_set.LiveSet.{LiveSet};
ghost use Rattle.vg_number.specs.declared.numbers.Numbers.{Numbers};
ghost use Rattle.vg_place.specs.declared.placing.Columns.{Columns};
ghost use Rattle.vg_packed.specs.IsOf.{IsOf};
ghost use Rattle.vg_packed.specs.IsPlaced.{IsPlaced};
ghost use Rattle.vg_packed.specs.declared.program.FirmProgram.{FirmProgram};
ghost use Rattle.vg_packed.specs.Given.{IsGiven};
ghost use Rattle.vg_packed.specs.Packed.{IsPackedFrom};
ghost use Rattle.vg_packed.specs.Plans.{planned};
ghost use Rattle.vg_packed.specs.Programs.{program_of};
ghost use Rattle.vg_packed.specs.Ready.{IsReady};

/// The plan of a packed program is the layout of what is live, and all of it is placed. The body is empty: its contract is a law of the
/// definitions, as that below.
pub fn packed_programs_are_laid()
    ensures live { (p : Program) (h : Heap) (s : LiveSet) (n : Numbers) (c : Columns) (f : FirmProgram) → IsGiven p h s n c → IsReady p h
        → (from : IsPackedFrom p h s n c f) → (k : Codes) → IsOf p h (planned h n from.plan) k (program_of k f) }
    ensures placed { (p : Program) (h : Heap) (s : LiveSet) (n : Numbers) (c : Columns) (f : FirmProgram) → IsGiven p h s n c → IsReady p h
        → (from : IsPackedFrom p h s n c f) → (k : Codes) → AreCodes (length f.procedures) k
        → IsPlaced p (planned h n from.plan) k (program_of k f) }
{}

/// From its initialised heap a program does what the program does to which it is packed: each run ends for the same reason in the very same
/// world, with the same trace, the same clock, and the same calls active behind each tick, whatever the code numbers of the procedures, the
/// recorder, the interrupts, the limit of depth and the clock, and whatever bytes the devices give.
pub fn packed_programs_do_the_same<K>()
    ensures { (r : Recorder K) (p : Program) (h : Heap) (s : LiveSet) (n : Numbers) (c : Columns) (f : FirmProgram) → IsGiven p h s n c
        → IsReady p h → IsPackedFrom p h s n c f → (k : Codes) → AreCodes (length f.procedures) k
        → (history : K) (deepest : Option ℕ) (reads interrupts : List ℕ) (clock : ℕ) → AreReads reads
        → Alike (running r history p h deepest reads interrupts clock)
        (firm.running r k (program_of k f) (length interrupts) (firm.first_state (program_of k f))
        (running_world history deepest reads interrupts clock)) }
{}
