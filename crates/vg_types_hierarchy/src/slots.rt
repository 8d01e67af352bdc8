// The slots of fields.
ghost use Rattle.std.specs.Prelude.{◌≡◌, map, IfOk};
ghost use Rattle.vg_types_hierarchy.specs.Slots.{with_slot, inherited};

use std::alloc::Global;
use vg_base::{NoMemory, Row};
use vg_core::{Class, Field, Owner};

/// Fields with their slots among all that their objects have: the slot of a class's field was its place among the own ones.
pub fn with_slots(
    alloc: Global,
    classes: &[Class],
    own: &[Row<u32>],
    fields: &[Field],
) -> Result<Row<Field>, NoMemory>
    ensures { IfOk result (λ row. row ≡ map (with_slot classes.now own.now) fields.now) }
{
    let mut row = Row::new(alloc);
    'fields: for field in fields {
        row.push(with_slot(classes, own, *field)?)?;
    }
    Ok(row)
}

// A field with its slot.
fn with_slot(classes: &[Class], own: &[Row<u32>], field: Field) -> Result<Field, NoMemory>
    ensures { IfOk result (λ f. f ≡ with_slot classes.now own.now field) }
{
    match field.owner {
        Owner::InClass(class) => {
            let before = u32::try_from(inherited(classes, own, usize::from(class)));
            match before {
                Ok(before) => match before.checked_add(field.slot) {
                    Some(slot) => Ok(Field { slot, ..field }),
                    // There is no memory for more fields than have a number.
                    None => Err(NoMemory),
                },
                // There is no memory for more fields than have a number.
                Err(_) => Err(NoMemory),
            }
        }
        Owner::InComponent(_) => Ok(field),
    }
}

// How many fields a class inherits.
fn inherited(classes: &[Class], own: &[Row<u32>], class: usize) -> usize
    ensures { result ≡ inherited classes.now own.now class }
{
    let all = match classes.get(class) {
        Some(found) => found.fields.len(),
        None => 0,
    };
    let own = match own.get(class) {
        Some(fields) => fields.len(),
        None => 0,
    };
    all.saturating_sub(own)
}
