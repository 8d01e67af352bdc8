// The law of the bytes with which a run of linear code begins.
ghost use Rattle.std.specs.Prelude.{◌≡◌, ℕ, List, Some, None, slice_get};
ghost use Rattle.vg_codes.specs.Codes.{Codes};
ghost use Rattle.vg_core.specs.declared.program.Tables.{Tables};
ghost use Rattle.vg_core.specs.Heap.{Kind};
ghost use Rattle.vg_firm.specs.declared.step.ArrayPlace.{ArrayPlace};
ghost use Rattle.vg_flatten.specs.Columns.{RamStands, TableStands};
ghost use Rattle.vg_packed.specs.declared.program.FirmProgram.{FirmProgram};
ghost use Rattle.vg_packed.specs.Programs.{program_of};
ghost use Rattle.vg_place.specs.declared.placing.Columns.{Columns};
ghost use Rattle.vg_place.specs.Placing.{ArePlaced};
ghost use Rattle.vg_placement.specs.Columns.{all_columns, Needs};
ghost use Rattle.vg_placement.specs.declared.column.Column.{Column};
ghost use Rattle.vg_table_bytes.specs.Bytes.{columns_bytes, ram_widths, table_bytes_of};
ghost use Rattle.vg_started_bytes.specs.Started.{bytes_in, ram_places, table_addresses};
ghost use Rattle.vg_table_bytes.specs.Rows.{HasRows};

/// Where the bytes of the initial copy are in RAM, the columns of the packed program stand there at their places; and its tables of arrays stand
/// at theirs, where the bytes of all tables are in flash. It has no table but those that are placed. The body is empty: its contract is a law of the
/// definitions.
pub fn started_programs_stand()
    ensures ram { (k : Codes) (p : Tables) (n : Needs) (κ : List Kind) (c : Columns) (f : FirmProgram)
        → ArePlaced (all_columns p n κ) c → HasRows k c.list f
        → RamStands (ram_places c.list) (program_of k f).ram (bytes_in k (columns_bytes (ram_widths c.list) 0 f.columns)) }
    ensures flash { (k : Codes) (p : Tables) (n : Needs) (κ : List Kind) (c : Columns) (f : FirmProgram)
        → ArePlaced (all_columns p n κ) c → HasRows k c.list f
        → (t address : ℕ) (arrays : List ArrayPlace) → slice_get (table_addresses c.list) t ≡ Some address
        → slice_get (program_of k f).tables t ≡ Some arrays
        → TableStands (bytes_in k (table_bytes_of (ram_widths c.list) f.columns f.tables)) address arrays }
    ensures known { (k : Codes) (list : List Column) (f : FirmProgram) → HasRows k list f
        → (t : ℕ) → slice_get (table_addresses list) t ≡ None → slice_get (program_of k f).tables t ≡ None }
{}
