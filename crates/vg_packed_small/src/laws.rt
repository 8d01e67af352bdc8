// The law of small numbers.
ghost use Rattle.std.specs.Prelude.{◌≡◌, ◌≤◌, ◌<◌, ℕ, Some, length, map};
ghost use Rattle.vg_core.specs.declared.heap.Heap.{Heap};
ghost use Rattle.vg_core.specs.Program.{Program};
ghost use Rattle.vg_core.specs.Typing.{IsEntry};
ghost use Rattle.vg_firm.specs.Held.{procedure_of};
ghost use Rattle.vg_live.specs.declared.live_set.LiveSet.{LiveSet};
ghost use Rattle.vg_number.specs.declared.numbers.Numbers.{Numbers};
ghost use Rattle.vg_place.specs.declared.placing.Columns.{Columns};
ghost use Rattle.vg_packed.specs.declared.program.FirmProgram.{FirmProgram};
ghost use Rattle.vg_packed.specs.Given.{IsGiven};
ghost use Rattle.vg_packed.specs.Packed.{IsPackedFrom};
ghost use Rattle.vg_packed.specs.Plans.{planned};
ghost use Rattle.vg_packed.specs.Ready.{IsReady};
ghost use Rattle.vg_packed_small.specs.Small.{AreAllSmall, HasNoParameters};

/// A law of packed programs. The numbers of the cases of dispatches have two bytes; there are at most as many procedures as the program has methods; and where
/// the program is ready to be packed, the main procedure is one of them, and the procedure of an entry has no parameters, but for a receiver. The body is
/// empty: its contract is a law of the definitions.
pub fn packed_numbers_are_small()
    ensures dispatches { (p : Program) (h : Heap) (s : LiveSet) (n : Numbers) (c : Columns) (f : FirmProgram) → IsGiven p h s n c
        → IsPackedFrom p h s n c f → AreAllSmall f.dispatches }
    ensures few { (p : Program) (h : Heap) (s : LiveSet) (n : Numbers) (c : Columns) (f : FirmProgram) → IsPackedFrom p h s n c f
        → length f.procedures ≤ length p.tables.methods }
    ensures main { (p : Program) (h : Heap) (s : LiveSet) (n : Numbers) (c : Columns) (f : FirmProgram) → IsGiven p h s n c → IsReady p h
        → IsPackedFrom p h s n c f → f.main < length f.procedures }
    ensures entries { (p : Program) (h : Heap) (s : LiveSet) (n : Numbers) (c : Columns) (f : FirmProgram) → IsGiven p h s n c → IsReady p h
        → (from : IsPackedFrom p h s n c f) → (m q : ℕ) → IsEntry p m → (planned h n from.plan).numbering.procedure m ≡ Some q
        → HasNoParameters (map procedure_of f.procedures) q }
{}
