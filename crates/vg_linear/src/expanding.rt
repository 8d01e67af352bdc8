// All procedures, expanded.
ghost use Rattle.std.specs.Prelude.{◌≡◌, ◌<◌, IfOk};
ghost use Rattle.vg_linear.specs.Expanded.{AreAllExpanded, IsTooLongFor};

use std::alloc::Global;
use vg_base::{Refusal, Row};
use vg_expand::{TooLong, expand};
use vg_lin::LinProc;

/// The procedures with calls of routines, which have the numbers from the first one on, in place of what needs one. It refuses what `expand` refuses
/// of one of them.
pub fn expand_all(
    alloc: Global,
    procedures: &[LinProc],
    first: u16,
) -> Result<Row<LinProc>, Refusal<TooLong>>
    requires { first < 65533 }
    ensures meaning { IfOk result (λ new. AreAllExpanded first procedures.now new) }
    ensures refusal { IsTooLongFor result procedures.now }
{
    let mut row = Row::new(alloc);
    for procedure in procedures {
        procedure.keeps();
        match expand(alloc, procedure, first) {
            Ok(new) => {
                new.keeps();
                row.push(new)?;
            }
            Err(why) => return Err(why),
        }
    }
    Ok(row)
}
