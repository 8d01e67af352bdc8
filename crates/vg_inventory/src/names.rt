// The names of what a text declares.
ghost use Rattle.std.specs.Prelude.{◌≡◌, IfOk, map};
ghost use Rattle.vg_inventory.specs.Names.{behind_space, method_name};

use crate::known::Known;
use std::alloc::Global;
use vg_base::{Name, Names, NoMemory, Row};
use vg_core::{Member, Tables};
use vg_report::members::put_member;

/// The name of a method or a field, behind that of the class or component which declares it.
pub fn member_name(alloc: Global, known: Known<'_>, member: Member) -> Result<Row<u8>, NoMemory> {
    let mut text = Row::new(alloc);
    put_member(&mut text, &known.program.tables, known.names, member)?;
    behind_space(alloc, text.as_slice())
}

// What stands behind the first space: a member is written behind the word for what it is.
fn behind_space(alloc: Global, text: &[u8]) -> Result<Row<u8>, NoMemory>
    ensures { IfOk result (λ rest. rest ≡ behind_space text.now) }
{
    let mut rest = Row::new(alloc);
    rest.append(behind(text))?;
    Ok(rest)
}

fn behind(text: &[u8]) -> &[u8]
    ensures { result.now ≡ behind_space text.now }
{
    match text {
        [] => text,
        [byte, rest @ ..] => { if *byte == b' ' { rest } else { behind(rest) } }
    }
}

/// The names of methods, each behind that of the class or component which declares it.
pub fn method_names(
    alloc: Global,
    tables: &Tables,
    names: &Names,
    methods: &[u16],
) -> Result<Row<Row<u8>>, NoMemory>
    ensures { IfOk result (λ rows. rows ≡ map (method_name names.now tables.now) methods.now) }
{
    let mut rows = Row::new(alloc);
    for method in methods {
        let name = method_name(alloc, tables, names, *method)?;
        rows.push(name)?;
    }
    Ok(rows)
}

#[tactic(auto, using(crate::proofs::Spelled::behind_word))]
fn method_name(
    alloc: Global,
    tables: &Tables,
    names: &Names,
    method: u16,
) -> Result<Row<u8>, NoMemory>
    ensures { IfOk result (λ name. name ≡ method_name names.now tables.now method) }
{
    let mut text = Row::new(alloc);
    put_member(&mut text, tables, names, Member::Method(method))?;
    behind_space(alloc, text.as_slice())
}

/// Puts the text of a name behind a text.
pub fn put_name(text: &mut Row<u8>, known: Known<'_>, name: Name) -> Result<(), NoMemory> {
    match known.names.text(name) {
        Some(found) => text.append(found.as_bytes()),
        None => Ok(()),
    }
}

/// Puts the name of a class behind a text.
pub fn put_class(text: &mut Row<u8>, known: Known<'_>, class: u16) -> Result<(), NoMemory> {
    match known
        .program
        .tables
        .classes
        .as_slice()
        .get(usize::from(class))
    {
        Some(found) => put_name(text, known, found.name),
        None => Ok(()),
    }
}
