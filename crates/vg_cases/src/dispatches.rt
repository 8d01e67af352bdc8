// Fewer cases, of one dispatch and of all.
ghost use Rattle.std.specs.Prelude.{◌≡◌, IfOk, map};
ghost use Rattle.vg_cases.specs.Fewer.{AreAllFewer, AreFewer, fewer};

use crate::covering::covers;
use crate::joining::merged;
use crate::placing::in_order;
use std::alloc::Global;
use vg_base::{NoMemory, Row};
use vg_codes::Case;

/// No more cases than these, which have for each number for which these have a procedure the same one.
///
/// For a number of no case they may have any procedure: so two neighbours with one procedure are one case, also across a gap.
pub fn fewer(alloc: Global, cases: &[Case]) -> Result<Row<Case>, NoMemory>
    ensures exactly { IfOk result (λ new. new ≡ fewer cases.now) }
    ensures fewer { IfOk result (λ new. AreFewer cases.now new) }
{
    let ordered = in_order(alloc, cases)?;
    let new = merged(alloc, ordered.as_slice())?;
    if covers(new.as_slice(), cases) {
        Ok(new)
    } else {
        Ok(Row::from_vec(Vec::from_slice(alloc, cases)?))
    }
}

/// The same of all dispatches of a program, each at its place.
pub fn fewer_of_all(alloc: Global, dispatches: &[Row<Case>]) -> Result<Row<Row<Case>>, NoMemory>
    ensures exactly { IfOk result (λ new. new ≡ map fewer dispatches.now) }
    ensures fewer { IfOk result (λ new. AreAllFewer dispatches.now new) }
{
    let mut rows = Row::new(alloc);
    for cases in dispatches {
        let new = fewer(alloc, cases.as_slice())?;
        rows.push(new)?;
    }
    Ok(rows)
}
