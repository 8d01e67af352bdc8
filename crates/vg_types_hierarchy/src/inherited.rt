// What the classes of a chain declare.
ghost use Rattle.std.specs.Prelude.{◌≡◌, ◌++◌, slice_get, IfOk, OnOk};
ghost use Rattle.vg_types_hierarchy.specs.Inherited.{own_at, fields_on, methods_on};

use std::alloc::Global;
use vg_base::{NoMemory, Row};

/// The fields of the classes of a chain, those of the highest first.
pub(crate) fn fields_on(
    alloc: Global,
    own: &[Row<u32>],
    chain: &[u16],
) -> Result<Row<u32>, NoMemory>
    ensures { IfOk result (λ row. row ≡ fields_on own.now chain.now) }
{
    let mut row = Row::new(alloc);
    'chain: for index in (0..chain.len()).rev() {
        append_fields(&mut row, own, usize::from(chain[index]))?;
    }
    Ok(row)
}

// The own fields of a class behind others.
fn append_fields(row: &mut Row<u32>, own: &[Row<u32>], class: usize) -> Result<(), NoMemory>
    ensures { OnOk result (row.new ≡ row.old ++ own_at (slice_get own.now class)) }
{
    if let Some(fields) = own.get(class) {
        'fields: for field in fields.as_slice() {
            row.push(*field)?;
        }
    }
    Ok(())
}

/// The methods of the classes of a chain, those of the nearest first.
pub(crate) fn methods_on(
    alloc: Global,
    own: &[Row<u16>],
    chain: &[u16],
) -> Result<Row<u16>, NoMemory>
    ensures { IfOk result (λ row. row ≡ methods_on own.now chain.now) }
{
    let mut row = Row::new(alloc);
    'chain: for class in chain {
        append_methods(&mut row, own, usize::from(*class))?;
    }
    Ok(row)
}

// The own methods of a class behind others.
fn append_methods(row: &mut Row<u16>, own: &[Row<u16>], class: usize) -> Result<(), NoMemory>
    ensures { OnOk result (row.new ≡ row.old ++ own_at (slice_get own.now class)) }
{
    if let Some(methods) = own.get(class) {
        'methods: for method in methods.as_slice() {
            row.push(*method)?;
        }
    }
    Ok(())
}
