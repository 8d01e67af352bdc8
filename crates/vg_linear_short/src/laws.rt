// The law of short packed programs.
ghost use Rattle.std.specs.Prelude.{◌≤◌, List, length};
ghost use Rattle.std.specs.List.{AllByRecursion};
ghost use Rattle.vg_flatten_shapes.specs.declared.fault.Fault.{Fault};
ghost use Rattle.vg_placement.specs.declared.column.Column.{Column};
ghost use Rattle.vg_packed.specs.declared.program.FirmProgram.{FirmProgram};
ghost use Rattle.vg_linear.specs.Laying.{layout_of};
ghost use Rattle.vg_linear.specs.Refusals.{IsCauseOf};
ghost use Rattle.vg_linear.specs.Whole.{packed_of};
ghost use Rattle.vg_linear.specs.Widths.{AllHaveWidths};
ghost use Rattle.vg_linear_short.specs.Short.{IsShort};

/// No cause but want of memory is left why a packed program should lack linear code, where it has at most 65,531 procedures, and each of them has the
/// widths that linear code asks for, is typed and is short. The body is empty: its contract is a law of the definitions.
pub fn short_programs_are_linear()
    ensures { (cs : List Column) (f : FirmProgram) (why : Fault) → AllHaveWidths f.procedures → length f.procedures ≤ 65531
        → AllByRecursion (IsShort (layout_of cs f)) (packed_of f) → IsCauseOf why cs f → ⊥ }
{}
