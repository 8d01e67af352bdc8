// The procedures of methods.
ghost use Rattle.std.specs.Prelude.{◌≡◌, ◌≤◌, IfOk, length};
ghost use Rattle.vg_pack_calls.specs.Procedures.{procedures_from};

use std::alloc::Global;
use vg_base::{NoMemory, Row};
use vg_live::Reason;

/// The procedure of each method, where it is live: the live ones are numbered from 0, in order of the text.
///
/// There are at most 65,535 methods.
pub fn procedure_numbers(
    alloc: Global,
    live: &[Option<Reason>],
) -> Result<Row<Option<u16>>, NoMemory>
    requires { length live.now ≤ 65535 }
    ensures { IfOk result (λ rows. rows ≡ procedures_from 0 live.now) }
{
    let mut rows = Row::new(alloc);
    let mut next = 0u16;
    for reason in live {
        match *reason {
            Some(_) => {
                rows.push(Some(next))?;
                next += 1;
            }
            None => rows.push(None)?,
        }
    }
    Ok(rows)
}
