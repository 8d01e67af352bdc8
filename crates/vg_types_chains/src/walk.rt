// The walk from a class to those above it.
ghost use Rattle.std.specs.Prelude.{◌≡◌, slice_get, Some, IfOk};
ghost use Rattle.vg_types_chains.specs.Chains.{chain_up, above_at};

use std::alloc::Global;
use vg_base::{NoMemory, Row};

/// A class and those above it, the nearest first, at most so many: each class has the number of the one above it, where it has one.
pub fn chain(
    alloc: Global,
    above: &[Option<u16>],
    most: usize,
    class: u16,
) -> Result<Row<u16>, NoMemory>
    ensures { IfOk result (λ row. row ≡ chain_up most above.now (Some class)) }
{
    let mut row = Row::new(alloc);
    let mut next = Some(class);
    'up: for _step in 0..most {
        match next {
            Some(class) => {
                row.push(class)?;
                next = above_at(above, class);
            }
            None => return Ok(row),
        }
    }
    Ok(row)
}

// The class above a class.
fn above_at(above: &[Option<u16>], class: u16) -> Option<u16>
    ensures { result ≡ above_at (slice_get above.now class) }
{
    match above.get(usize::from(class)) {
        Some(next) => *next,
        None => None,
    }
}
