// The law of the bytes with which a program begins.
ghost use Rattle.std.specs.Prelude.{◌≡◌, ℕ, List, Some, length, slice_get};
ghost use Rattle.vg_codes.specs.Codes.{Codes};
ghost use Rattle.vg_core.specs.declared.program.Tables.{Tables};
ghost use Rattle.vg_core.specs.Heap.{Kind};
ghost use Rattle.vg_firm.specs.declared.step.ArrayPlace.{ArrayPlace};
ghost use Rattle.vg_packed.specs.declared.program.FirmProgram.{FirmProgram};
ghost use Rattle.vg_packed.specs.Programs.{program_of};
ghost use Rattle.vg_place.specs.declared.placing.Columns.{Columns};
ghost use Rattle.vg_place.specs.Placing.{ArePlaced};
ghost use Rattle.vg_placement.specs.Columns.{all_columns, Needs};
ghost use Rattle.vg_table_bytes.specs.Bytes.{columns_bytes, ram_widths, table_bytes_of};
ghost use Rattle.vg_started_bytes.specs.Started.{bytes_in, ram_places, table_addresses, HoldsColumns, HoldsTable};
ghost use Rattle.vg_table_bytes.specs.Rows.{HasRows};

/// Where the columns of a program are placed and it has a row of entries for each, the initial copy holds the values with which its columns
/// in RAM begin, each column at its address, whatever the code numbers of procedures, and has as many bytes as all of them; and the bytes of
/// all tables hold where its arrays stand. The body is empty: its contract is a law of the definitions.
pub fn bytes_hold_columns()
    ensures columns { (k : Codes) (p : Tables) (n : Needs) (κ : List Kind) (c : Columns) (f : FirmProgram)
        → ArePlaced (all_columns p n κ) c → HasRows k c.list f
        → HoldsColumns (bytes_in k (columns_bytes (ram_widths c.list) 0 f.columns)) 0x0100 (ram_places c.list) (program_of k f).ram }
    ensures copy { (k : Codes) (p : Tables) (n : Needs) (κ : List Kind) (c : Columns) (f : FirmProgram)
        → ArePlaced (all_columns p n κ) c → HasRows k c.list f → length (columns_bytes (ram_widths c.list) 0 f.columns) ≡ c.static_bytes }
    ensures tables { (k : Codes) (p : Tables) (n : Needs) (κ : List Kind) (c : Columns) (f : FirmProgram)
        → ArePlaced (all_columns p n κ) c → HasRows k c.list f
        → (t address : ℕ) (arrays : List ArrayPlace) → slice_get (table_addresses c.list) t ≡ Some address
        → slice_get f.tables t ≡ Some arrays
        → HoldsTable (bytes_in k (table_bytes_of (ram_widths c.list) f.columns f.tables)) 0x008C address arrays }
{}
