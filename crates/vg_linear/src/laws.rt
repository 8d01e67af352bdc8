// The law of linear programs.
ghost use Rattle.std.specs.Prelude.{ℕ, List, length, Option};
ghost use Rattle.vg_codes.specs.Codes.{Codes, AreCodes};
ghost use Rattle.vg_trimming.specs.Runs.{RunsAsRead};
ghost use Rattle.vg_flatten.specs.Flattened.{AreFlat};
ghost use Rattle.vg_lin.specs.Program.{Program};
ghost use Rattle.vg_placement.specs.declared.column.Column.{Column};
ghost use Rattle.vg_packed.specs.declared.program.FirmProgram.{FirmProgram};
ghost use Rattle.vg_packed.specs.Programs.{program_of};
ghost use Rattle.vg_linear.specs.declared.whole.Linear.{Linear};
ghost use Rattle.vg_linear.specs.Whole.{IsLinear, linear_program};
ghost use Rattle.vg_linear.specs.Standing.{StandIn};

/// The linear program of a packed one does what a program does that is the packed one, flattened: with at least one step that is no push for each that
/// counts, the same outside, the same calls open at each opening, and the same ending, wherever no run is Wrong and bytes are read; whatever the code numbers
/// of procedures, and where the columns and the tables stand in the bytes of both memories as the layout says. The body is empty: its contract is a law of
/// the definitions.
pub fn linear_programs_follow()
    ensures { (k : Codes) (cs : List Column) (f : FirmProgram) (l : Linear) (tables ram : List ℕ) (handler : ℕ → Option ℕ)
        → AreCodes (length f.procedures) k → StandIn k l.layout f tables ram handler → IsLinear cs f l
        → (old : Program) × AreFlat k l.layout (program_of k f) old × RunsAsRead old (linear_program k f l tables ram handler) }
{}
