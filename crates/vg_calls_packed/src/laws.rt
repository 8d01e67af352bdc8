// The law of packed calls.
ghost use Rattle.std.specs.Prelude.{ℕ, List, map};
ghost use Rattle.vg_codes.specs.Codes.{Codes};
ghost use Rattle.vg_core.specs.declared.heap.Heap.{Heap};
ghost use Rattle.vg_core.specs.Program.{Program};
ghost use Rattle.vg_live.specs.declared.live_set.LiveSet.{LiveSet};
ghost use Rattle.vg_number.specs.declared.numbers.Numbers.{Numbers};
ghost use Rattle.vg_place.specs.declared.placing.Columns.{Columns};
ghost use Rattle.vg_packed.specs.declared.program.FirmProgram.{FirmProgram};
ghost use Rattle.vg_packed.specs.Given.{IsGiven};
ghost use Rattle.vg_packed.specs.Packed.{IsPackedFrom};
ghost use Rattle.vg_packed.specs.Programs.{program_of};
ghost use Rattle.vg_packed.specs.Ready.{IsReady};
ghost use Rattle.vg_calls_packed.specs.Enough.{IsEnough};
ghost use Rattle.vg_calls_packed.specs.Typed as typed;
ghost use Rattle.vg_calls_packed.specs.Ways.{HasNoCycle, IsCycleIn, IsSpent, method_at};

/// A law of packed programs. So many bytes are enough for the active calls of a packed program, and the calls of some way cost as many: then no way of calls
/// of the typed program costs more, and some way costs as much. Procedures that call one another in turn, and to which calls lead, are methods that do; and
/// where there are no such procedures there are no such methods. The body is empty: its contract is a law of the definitions.
pub fn packed_calls_are_typed_calls()
    ensures path { (p : Program) (h : Heap) (s : LiveSet) (n : Numbers) (c : Columns) (f : FirmProgram) → IsGiven p h s n c → IsReady p h
        → IsPackedFrom p h s n c f → (costs : List ℕ) (bytes : ℕ) → ((k : Codes) → IsEnough (program_of k f) costs bytes) → IsSpent f costs bytes
        → typed.IsPath p h costs bytes }
    ensures none { (p : Program) (h : Heap) (s : LiveSet) (n : Numbers) (c : Columns) (f : FirmProgram) → IsGiven p h s n c → IsReady p h
        → IsPackedFrom p h s n c f → HasNoCycle f → typed.HasNoCycle p h }
    ensures cycle { (p : Program) (h : Heap) (s : LiveSet) (n : Numbers) (c : Columns) (f : FirmProgram) → IsGiven p h s n c → IsReady p h
        → IsPackedFrom p h s n c f → (procedures : List ℕ) → IsCycleIn f procedures → typed.IsCallCycle p h (map (method_at f.procedures) procedures) }
{}
