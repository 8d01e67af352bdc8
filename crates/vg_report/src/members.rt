// Members by their names.
ghost use Rattle.std.specs.Prelude.{◌≡◌, ◌++◌, OnOk, codes, slice_get};
ghost use Rattle.vg_report.specs.Texts.{field_text, member_text, method_text, name_text, named_text, owner_text};

use itoa::Buffer;
use vg_base::{Name, Names, NoMemory, Row};
use vg_core::{Member, Owner, Tables};

/// Puts a member behind a text: what it is, and its name or the number of its cell.
pub fn put_member(
    text: &mut Row<u8>,
    tables: &Tables,
    names: &Names,
    member: Member,
) -> Result<(), NoMemory>
    ensures { OnOk result (text.new ≡ text.old ++ member_text names.now tables.now member) }
{
    match member {
        Member::Method(method) => {
            text.append(b"method ")?;
            put_method(text, tables, names, method)
        }
        Member::Field(field) => {
            text.append(b"field ")?;
            put_field(text, tables, names, field)
        }
        Member::Cell(cell) => {
            text.append(b"cell ")?;
            text.append(Buffer::new().format(cell).as_bytes())
        }
    }
}

// Puts the names of a method, where it is there.
fn put_method(
    text: &mut Row<u8>,
    tables: &Tables,
    names: &Names,
    method: u16,
) -> Result<(), NoMemory>
    ensures { OnOk result (text.new ≡ text.old ++ method_text names.now tables.now (slice_get tables.now.methods method)) }
{
    match tables.methods.as_slice().get(usize::from(method)) {
        Some(found) => put_named(text, tables, names, found.owner, found.name),
        None => Ok(()),
    }
}

// Puts the names of a field, where it is there.
fn put_field(text: &mut Row<u8>, tables: &Tables, names: &Names, field: u32) -> Result<(), NoMemory>
    ensures { OnOk result (text.new ≡ text.old ++ field_text names.now tables.now (slice_get tables.now.fields field)) }
{
    match tables.fields.as_slice().get(field as usize) {
        Some(found) => put_named(text, tables, names, found.owner, found.name),
        None => Ok(()),
    }
}

// Puts the name of a class or component, a point, and the name of what it declares.
fn put_named(
    text: &mut Row<u8>,
    tables: &Tables,
    names: &Names,
    owner: Owner,
    name: Name,
) -> Result<(), NoMemory>
    ensures { OnOk result (text.new ≡ text.old ++ named_text names.now tables.now owner name) }
{
    put_owner(text, tables, names, owner)?;
    text.append(b".")?;
    put_name(text, names, name)
}

// Puts the name of a class or component.
fn put_owner(
    text: &mut Row<u8>,
    tables: &Tables,
    names: &Names,
    owner: Owner,
) -> Result<(), NoMemory>
    ensures { OnOk result (text.new ≡ text.old ++ owner_text names.now tables.now owner) }
{
    match owner {
        Owner::InClass(class) => match tables.classes.as_slice().get(usize::from(class)) {
            Some(found) => put_name(text, names, found.name),
            None => Ok(()),
        },
        Owner::InComponent(component) => match tables
            .components
            .as_slice()
            .get(usize::from(component))
        {
            Some(found) => put_name(text, names, *found),
            None => Ok(()),
        },
    }
}

// Puts the text of a name.
fn put_name(text: &mut Row<u8>, names: &Names, name: Name) -> Result<(), NoMemory>
    ensures { OnOk result (text.new ≡ text.old ++ name_text names.now name) }
{
    match names.text(name) {
        Some(found) => text.append(found.as_bytes()),
        None => Ok(()),
    }
}
