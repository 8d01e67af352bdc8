// The widths of locals.
ghost use Rattle.std.specs.Prelude.{◌≡◌, ◌++◌, IfOk, OnOk, map};
ghost use Rattle.vg_coded.specs.Widths as widths;

use std::alloc::Global;
use vg_base::{NoMemory, Row};
use vg_core::CoreType;
use vg_pack_code::width_of;

/// The widths of the parameters of a body and of its other locals, in bytes.
pub fn widths(alloc: Global, params: &[CoreType], others: &[CoreType]) -> Result<Row<u8>, NoMemory>
    ensures { IfOk result (λ row. row ≡ map widths.width_of (params.now ++ others.now)) }
{
    let mut row = Row::new(alloc);
    append(&mut row, params)?;
    append(&mut row, others)?;
    Ok(row)
}

// Puts the widths of these types behind the row.
fn append(row: &mut Row<u8>, types: &[CoreType]) -> Result<(), NoMemory>
    ensures { OnOk result (row.new ≡ row.old ++ map widths.width_of types.now) }
{
    for type_ in types {
        row.push(width_of(*type_))?;
    }
    Ok(())
}

/// A copy of these numbers.
pub fn copied(alloc: Global, numbers: &[u16]) -> Result<Row<u16>, NoMemory>
    ensures { IfOk result (λ row. row ≡ numbers.now) }
{
    let mut row = Row::new(alloc);
    for number in numbers {
        row.push(*number)?;
    }
    Ok(row)
}
