// The law of what plain linear programs take of the stack.
ghost use Rattle.std.specs.Prelude.{ℕ, ◌<◌, ◌≤◌, ◌^◌, List, length};
ghost use Rattle.std.specs.List.{AllByRecursion};
ghost use Rattle.vg_source.specs.Peak.{cost_of};
ghost use Rattle.vg_core.specs.Program.{Program};
ghost use Rattle.vg_placement.specs.declared.column.Column.{Column};
ghost use Rattle.vg_packed.specs.declared.program.FirmProgram.{FirmProgram};
ghost use Rattle.vg_frame_costs.specs.Payable.{CanBePaid};
ghost use Rattle.vg_linear.specs.declared.whole.Linear.{Linear};
ghost use Rattle.vg_linear.specs.Laying.{layout_of};
ghost use Rattle.vg_linear.specs.Whole.{IsPlain, packed_of};
ghost use Rattle.vg_plain_paid.specs.Paid.{CostsByNodes};

use vg_flat_frames::laws::flattened_procedures_take_few_bytes;
use vg_flat_short::laws::typed_need_few_pushed;

/// A linear program in which no procedure is trimmed can be paid by costs of methods, each of 32 and of four for each parameter, local and node of the method's
/// body, where each packed procedure is typed and light. The body calls the laws that it follows from.
pub fn plain_programs_are_paid()
    ensures { (p : Program) (cs : List Column) (f : FirmProgram) (l : Linear) (costs : List ℕ) → IsPlain cs f l
        → AllByRecursion (CostsByNodes p (layout_of cs f) (length f.procedures) costs) (packed_of f)
        → ((m : ℕ) → m < length costs → 32 ≤ cost_of costs m) → ((m : ℕ) → cost_of costs m < 2 ^ 31)
        → CanBePaid l.procedures l.start costs }
{
    typed_need_few_pushed();
    flattened_procedures_take_few_bytes();
}
