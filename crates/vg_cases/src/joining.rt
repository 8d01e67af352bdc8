// Neighbours with one procedure as one case.
ghost use Rattle.std.specs.Prelude.{◌≡◌, IfOk, Some, None, if◌then◌else◌};
ghost use Rattle.vg_cases.specs.Fewer.{can_join, joined, merged, together};

use std::alloc::Global;
use vg_base::{NoMemory, Row};
use vg_codes::Case;

/// The cases, of which neighbours that can be joined are one.
pub fn merged(alloc: Global, cases: &[Case]) -> Result<Row<Case>, NoMemory>
    ensures { IfOk result (λ row. row ≡ merged cases.now) }
{
    match cases {
        [] => Ok(Row::new(alloc)),
        [first, rest @ ..] => together(alloc, *first, rest),
    }
}

// A case and those behind it, with neighbours joined.
fn together(alloc: Global, first: Case, rest: &[Case]) -> Result<Row<Case>, NoMemory>
    ensures { IfOk result (λ row. row ≡ together first rest.now) }
{
    let mut row = Row::new(alloc);
    let mut last = first;
    for case in rest {
        match joined(last, *case) {
            Some(one) => last = one,
            None => {
                row.push(last)?;
                last = *case;
            }
        }
    }
    row.push(last)?;
    Ok(row)
}

// Two neighbours as one case, where they can be joined.
fn joined(case: Case, next: Case) -> Option<Case>
    ensures { result ≡ (if can_join case next then Some (joined case next) else None) }
{
    if case.procedure != next.procedure || next.first < case.first {
        return None;
    }
    let count = u32::from(next.first) + u32::from(next.count) - u32::from(case.first);
    if count < 65536 {
        Some(Case {
            count: count as u16,
            ..case
        })
    } else {
        None
    }
}
