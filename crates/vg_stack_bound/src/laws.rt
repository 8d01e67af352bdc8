// The law of bounded stacks.
ghost use Rattle.std.specs.Prelude.{ℕ, ◌+◌, ◌≤◌, List, length};
ghost use Rattle.vg_codes.specs.Codes.{Codes, AreCodes};
ghost use Rattle.vg_core.specs.declared.heap.Heap.{Heap};
ghost use Rattle.vg_core.specs.Program.{Program};
ghost use Rattle.vg_live.specs.declared.live_set.LiveSet.{LiveSet};
ghost use Rattle.vg_number.specs.declared.numbers.Numbers.{Numbers};
ghost use Rattle.vg_place.specs.declared.placing.Columns.{Columns};
ghost use Rattle.vg_packed.specs.declared.program.FirmProgram.{FirmProgram};
ghost use Rattle.vg_packed.specs.Given.{IsGiven};
ghost use Rattle.vg_packed.specs.Packed.{IsPackedFrom};
ghost use Rattle.vg_packed.specs.Programs.{program_of};
ghost use Rattle.vg_packed.specs.Ready.{IsReady};
ghost use Rattle.vg_memory.specs.Holds.{HoldsPeaks};
ghost use Rattle.vg_calls_packed.specs.Enough.{IsEnough};

/// A law of packed programs. Where so many bytes are enough for the active calls of a packed program, by costs of methods, and they and some more fit between
/// the floor and the end of SRAM, the stack holds what the active calls cost in each run of the typed program, and those bytes more. The body is empty: its contract is a law of the
/// definitions.
pub fn bounded_stacks_hold()
    ensures { (p : Program) (h : Heap) (s : LiveSet) (n : Numbers) (c : Columns) (f : FirmProgram) → IsGiven p h s n c → IsReady p h
        → IsPackedFrom p h s n c f → (k : Codes) → AreCodes (length f.procedures) k → (costs : List ℕ) (bytes : ℕ)
        → IsEnough (program_of k f) costs bytes → (floor extra : ℕ) → floor + (extra + bytes) ≤ 0x1100 → HoldsPeaks floor extra costs p h }
{}
