// Whether a procedure receives nothing.
ghost use Rattle.std.specs.Prelude.{◌≡◌, ◌↔◌, IfOk, IsTrue, false};
ghost use Rattle.std.specs.List.{AllByRecursion};
ghost use Rattle.vg_templates.specs.Framed.{framed};
ghost use Rattle.vg_followed.specs.Stands.{ReceivesNothing};
ghost use Rattle.vg_alloc.specs.Locations.{layout};

use std::alloc::Global;
use vg_alloc::{Locations, frames};
use vg_base::NoMemory;
use vg_lin::LinProc;

/// Whether a procedure receives nothing, by its layout: none of its arguments is pushed, and it keeps none of those that arrive in registers. The error is want of
/// memory.
pub fn receives_nothing(alloc: Global, procedure: &LinProc) -> Result<bool, NoMemory>
    ensures { IfOk result (λ nothing. IsTrue nothing ↔ ReceivesNothing (framed procedure.now)) }
{
    let locations = frames(alloc, procedure)?;
    Ok(take_nothing(&locations))
}

fn take_nothing(locations: &Locations) -> bool
    ensures { IsTrue result ↔ ReceivesNothing (layout locations.now) }
{
    locations.pushed() == 0 && keep_none(locations.arrives())
}

fn keep_none(arrives: &[bool]) -> bool
    ensures { IsTrue result ↔ AllByRecursion (λ kept. kept ≡ false) arrives.now }
{
    for kept in arrives {
        if *kept {
            return false;
        }
    }
    true
}
