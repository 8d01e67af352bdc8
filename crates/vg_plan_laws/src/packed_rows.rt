// The law of the rows of packed programs.
ghost use Rattle.std.specs.Prelude.{length};
ghost use Rattle.vg_codes.specs.Codes.{Codes, AreCodes};
ghost use Rattle.vg_core.specs.declared.heap.Heap.{Heap};
ghost use Rattle.vg_core.specs.Program.{Program};
ghost use Rattle.vg_live.specs.declared.live_set.LiveSet.{LiveSet};
ghost use Rattle.vg_number.specs.declared.numbers.Numbers.{Numbers};
ghost use Rattle.vg_place.specs.declared.placing.Columns.{Columns};
ghost use Rattle.vg_table_bytes.specs.Rows.{HasRows};
ghost use Rattle.vg_packed.specs.declared.program.FirmProgram.{FirmProgram};
ghost use Rattle.vg_packed.specs.Given.{IsGiven};
ghost use Rattle.vg_packed.specs.Packed.{IsPackedFrom};
ghost use Rattle.vg_packed.specs.Ready.{IsReady};
ghost use Rattle.vg_plan_laws.specs.Made.{IsMade};

/// A packed program whose columns have the values of the heap, and whose tables are the rows of its kept arrays, has a row of entries for each column in
/// RAM and a row of arrays for each table, and all of them fit into their bytes, whatever the code numbers of its procedures. The body is empty: its
/// contract is a law of the definitions.
pub fn packed_programs_have_rows()
    ensures { (p : Program) (h : Heap) (s : LiveSet) (n : Numbers) (c : Columns) (f : FirmProgram) → IsGiven p h s n c → IsReady p h
        → (from : IsPackedFrom p h s n c f) → IsMade p h s n c from.plan f → (k : Codes) → AreCodes (length f.procedures) k → HasRows k c.list f }
{}
