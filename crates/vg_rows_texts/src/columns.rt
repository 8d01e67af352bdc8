// Where the values of a program stand.
ghost use Rattle.std.specs.Prelude.{◌≤◌, length};
ghost use Rattle.vg_base.specs.Limits.{text_limit};

use crate::faults::fault_text;
use std::alloc::Global;
use vg_base::{Names, NoMemory, Refusal};
use vg_core::{CoreType, Owner, Tables};
use vg_faults::INIT_STEPS;
use vg_fits::{Fitted, fit};
use vg_placement::{Column, Held};
use vg_types_views::text_of;

/// The columns and tables of a text, each with its address, its bytes and what it holds; behind a semicolon the classes that have live objects, each with the
/// first number and how many there are; and behind another one the number of each cell, 0 where it is dead. Or the line of the fault.
pub fn placed(alloc: Global, text: &[u8]) -> Result<String, NoMemory>
    requires { length text.now ≤ text_limit }
{
    match fit(alloc, text, INIT_STEPS) {
        Ok(fitted) => shown(alloc, &fitted),
        Err(Refusal::Fault(fault)) => fault_text(alloc, fault),
        Err(Refusal::NoMemory) => Err(NoMemory),
    }
}

fn shown(alloc: Global, fitted: &Fitted) -> Result<String, NoMemory> {
    let start = &fitted.alive.start;
    let tables = &start.program.tables;
    let mut text = String::new(alloc);
    let mut behind = "";
    for column in fitted.placed.columns.list.as_slice() {
        text.push_str(behind)?;
        put_column(alloc, &mut text, &start.names, tables, column)?;
        behind = ", ";
    }
    behind = "; ";
    for (number, span) in fitted.placed.numbers.spans.as_slice().iter().enumerate() {
        if span.count > 0 {
            text.push_str(behind)?;
            text.push_str(class_name(&start.names, tables, number))?;
            let part = format!(in alloc; " {} {}", span.first, span.count)?;
            text.push_str(part.as_str())?;
            behind = ", ";
        }
    }
    behind = "; ";
    for number in fitted.placed.numbers.of_cell.as_slice() {
        let part = format!(in alloc; "{behind}{number}")?;
        text.push_str(part.as_str())?;
        behind = " ";
    }
    Ok(text)
}

// A column: its address, its bytes, and what it holds.
fn put_column(
    alloc: Global,
    text: &mut String,
    names: &Names,
    tables: &Tables,
    column: &Column,
) -> Result<(), NoMemory> {
    let bytes = u32::from(column.width) * u32::from(column.count);
    let part = format!(in alloc; "{:04x} {bytes} ", column.at)?;
    text.push_str(part.as_str())?;
    match column.what {
        Held::Initial => Ok(text.push_str("static")?),
        Held::Field(number) => put_field(text, names, tables, number),
        Held::Elements(element) => put_arrays(alloc, text, names, tables, element),
        Held::Table(element) => {
            text.push_str("table ")?;
            put_arrays(alloc, text, names, tables, element)
        }
    }
}

// The name of a field, behind that of its owner.
fn put_field(
    text: &mut String,
    names: &Names,
    tables: &Tables,
    number: u32,
) -> Result<(), NoMemory> {
    let Some(field) = tables.fields.as_slice().get(number as usize) else {
        return Ok(text.push_str("no field")?);
    };
    let owner = match field.owner {
        Owner::InClass(class) => class_name(names, tables, usize::from(class)),
        Owner::InComponent(component) => {
            match tables.components.as_slice().get(usize::from(component)) {
                Some(component) => text_of(names, *component),
                None => "no component",
            }
        }
    };
    text.push_str(owner)?;
    text.push_str(".")?;
    text.push_str(text_of(names, field.name))?;
    Ok(())
}

fn class_name<'a>(names: &'a Names, tables: &Tables, class: usize) -> &'a str {
    match tables.classes.as_slice().get(class) {
        Some(class) => text_of(names, class.name),
        None => "no class",
    }
}

// The type of the arrays of elements of the type of this number, which are arrays themselves in at most nine levels.
fn put_arrays(
    alloc: Global,
    text: &mut String,
    names: &Names,
    tables: &Tables,
    element: u32,
) -> Result<(), NoMemory> {
    let mut lowest = type_at(tables, element);
    let mut levels = 1u8;
    for _level in 0..9u8 {
        if let CoreType::ArrayType(below) = lowest {
            lowest = type_at(tables, below);
            levels = levels.saturating_add(1);
        }
    }
    match lowest {
        CoreType::IntType => text.push_str("int")?,
        CoreType::BoolType => text.push_str("bool")?,
        CoreType::CharType => text.push_str("char")?,
        CoreType::RawType(bits) => {
            let part = format!(in alloc; "raw.{bits}")?;
            text.push_str(part.as_str())?;
        }
        CoreType::ClassType(class) => text.push_str(class_name(names, tables, usize::from(class)))?,
        CoreType::FunctionType(_, _) => text.push_str("function")?,
        _ => text.push_str("another type")?,
    }
    for _level in 0..levels {
        text.push_str("[]")?;
    }
    Ok(())
}

fn type_at(tables: &Tables, number: u32) -> CoreType {
    match tables.types.as_slice().get(number as usize) {
        Some(found) => *found,
        None => CoreType::NoType,
    }
}
