// All procedures, flattened.
ghost use Rattle.std.specs.Prelude.{◌≡◌, IfOk, map};
ghost use Rattle.vg_firm.specs.Held.{procedure_of};
ghost use Rattle.vg_linear.specs.Flats.{AreAllFlat, AreTaken, AreTyped, IsRefusedFor};
ghost use Rattle.vg_linear.specs.Widths.{AllHaveWidths};

use std::alloc::Global;
use vg_base::{Refusal, Row};
use vg_firm::Procedure;
use vg_flatten::flatten;
use vg_flatten_shapes::{Fault, Layout};
use vg_lin::LinProc;

/// The procedures as linear code, one for one. It refuses what `flatten` refuses of one of them, for its cause.
pub fn flatten_all(
    alloc: Global,
    layout: &Layout,
    procedures: &[Procedure],
) -> Result<Row<LinProc>, Refusal<Fault>>
    requires { AllHaveWidths procedures.now }
    ensures flat { IfOk result (λ ps. AreAllFlat layout.now (map procedure_of procedures.now) ps) }
    ensures refusal { IsRefusedFor result layout.now (map procedure_of procedures.now) }
    ensures typed { AreTyped layout.now (map procedure_of procedures.now) → AreTaken result layout.now (map procedure_of procedures.now) }
{
    let mut row = Row::new(alloc);
    for procedure in procedures {
        match flatten(alloc, layout, procedure) {
            Ok(flat) => row.push(flat)?,
            Err(why) => return Err(why),
        }
    }
    Ok(row)
}
