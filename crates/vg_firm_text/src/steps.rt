// Steps as text.
use crate::operators::{operator_text, prefix_text};
use std::alloc::Global;
use vg_base::NoMemory;
use vg_firm::{Elements, Home, Step};

/// Puts a step behind a text, with a space before it: a word, and its numbers. Columns are `c`, tables `t`, dispatches `d`, procedures `q`, each with its place;
/// `w` is a width in bytes, a class is `first+count`, and the number of arguments stands behind a slash.
pub fn put_step(alloc: Global, text: &mut String, step: Step) -> Result<(), NoMemory> {
    let part = match step {
        Step::Number(_) | Step::This | Step::Local(_) | Step::SetLocal(_) | Step::Forget => {
            value_text(alloc, step)?
        }
        Step::Operate(operator) => operator_text(alloc, operator)?,
        Step::Apply(prefix) => prefix_text(alloc, prefix)?,
        Step::Load(_, _)
        | Step::Store(_, _)
        | Step::LoadAt(_, _, _)
        | Step::StoreAt(_, _, _)
        | Step::LoadNothing
        | Step::StoreNothing => field_text(alloc, step)?,
        Step::LoadItem(elements) => elements_text(alloc, "item", elements)?,
        Step::StoreItem(elements) => elements_text(alloc, "set-item", elements)?,
        Step::ReadDevice(address) => format!(in alloc; "read {address:02x}")?,
        Step::WriteDevice(address) => format!(in alloc; "write {address:02x}")?,
        _ => call_text(alloc, step)?,
    };
    text.push_str(" ")?;
    text.push_str(part.as_str())?;
    Ok(())
}

// Steps of values and locals.
fn value_text(alloc: Global, step: Step) -> Result<String, NoMemory> {
    match step {
        Step::Number(number) => Ok(format!(in alloc; "{number}")?),
        Step::Local(number) => Ok(format!(in alloc; "local {number}")?),
        Step::SetLocal(number) => Ok(format!(in alloc; "set-local {number}")?),
        Step::This => Ok(String::from_str(alloc, "this")?),
        _ => Ok(String::from_str(alloc, "forget")?),
    }
}

// Steps of fields.
fn field_text(alloc: Global, step: Step) -> Result<String, NoMemory> {
    match step {
        Step::Load(home, column) => Ok(format!(in alloc; "load {}c{column}", home_text(home))?),
        Step::Store(column, width) => Ok(format!(in alloc; "store c{column} w{width}")?),
        Step::LoadAt(home, column, first) => {
            Ok(format!(in alloc; "load-at {}c{column} {first}", home_text(home))?)
        }
        Step::StoreAt(column, first, width) => {
            Ok(format!(in alloc; "store-at c{column} {first} w{width}")?)
        }
        Step::LoadNothing => Ok(String::from_str(alloc, "load-nothing")?),
        _ => Ok(String::from_str(alloc, "store-nothing")?),
    }
}

// The elements of the arrays of one type: their column and its address, the table and the width.
fn elements_text(alloc: Global, word: &str, elements: Elements) -> Result<String, NoMemory> {
    let home = home_text(elements.home);
    let Elements {
        column,
        address,
        table,
        width,
        ..
    } = elements;
    Ok(format!(in alloc; "{word} {home}c{column} {address:04x} t{table} w{width}")?)
}

// Nothing before a column in RAM.
fn home_text(home: Home) -> &'static str {
    match home {
        Home::Ram => "",
        Home::Flash => "flash ",
    }
}

// Steps of arrays' lengths, classes, delegates and calls.
fn call_text(alloc: Global, step: Step) -> Result<String, NoMemory> {
    match step {
        Step::Length(table) => Ok(format!(in alloc; "length t{table}")?),
        Step::IsWithin(first, count) => Ok(format!(in alloc; "is {first}+{count}")?),
        Step::StopUnlessWithin(first, count) => Ok(format!(in alloc; "cast {first}+{count}")?),
        Step::Bind(procedure) => Ok(format!(in alloc; "bind q{procedure}")?),
        Step::BindFor(dispatch) => Ok(format!(in alloc; "bind d{dispatch}")?),
        Step::Call(procedure, count) => Ok(format!(in alloc; "call q{procedure}/{count}")?),
        Step::CallFor(dispatch, count) => Ok(format!(in alloc; "call d{dispatch}/{count}")?),
        Step::CallValue(count) => Ok(format!(in alloc; "call-value /{count}")?),
        _ => Ok(String::from_str(alloc, "idle")?),
    }
}
