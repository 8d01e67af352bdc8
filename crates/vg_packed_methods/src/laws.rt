// The law of packed methods.
ghost use Rattle.std.specs.Prelude.{length, map};
ghost use Rattle.vg_core.specs.declared.heap.Heap.{Heap};
ghost use Rattle.vg_core.specs.Program.{Program};
ghost use Rattle.vg_firm.specs.Held.{procedure_of};
ghost use Rattle.vg_live.specs.declared.live_set.LiveSet.{LiveSet};
ghost use Rattle.vg_number.specs.declared.numbers.Numbers.{Numbers};
ghost use Rattle.vg_packed.specs.declared.program.FirmProgram.{FirmProgram};
ghost use Rattle.vg_packed.specs.Given.{IsGiven};
ghost use Rattle.vg_packed.specs.Packed.{IsPackedFrom};
ghost use Rattle.vg_packed.specs.Ready.{IsReady};
ghost use Rattle.vg_packed_methods.specs.Methods.{AllCallBefore};
ghost use Rattle.vg_place.specs.declared.placing.Columns.{Columns};

/// A law of packed programs. No procedure idles, and each that one calls by its number is one of the program's. The body is empty: its contract is a law of the
/// definitions.
pub fn packed_methods_call_methods()
    ensures { (p : Program) (h : Heap) (s : LiveSet) (n : Numbers) (c : Columns) (f : FirmProgram) → IsGiven p h s n c → IsReady p h
        → IsPackedFrom p h s n c f → AllCallBefore (length f.procedures) (map procedure_of f.procedures) }
{}
