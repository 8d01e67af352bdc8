// Procedures by the names of their methods, and dispatches.
use crate::packing::Whole;
use std::alloc::Global;
use vg_base::{Names, NoMemory};
use vg_core::{Owner, Tables};
use vg_firm::Procedure;
use vg_firm_text::{put_dispatch, put_procedure};
use vg_packed::FirmProgram;
use vg_rows_lines::said;
use vg_types_views::text_of;

/// The procedure of the method that a word names.
pub fn procedure_text(alloc: Global, whole: &Whole, word: &str) -> Result<String, NoMemory> {
    for procedure in whole.program.procedures.as_slice() {
        let name = method_name(alloc, whole, procedure)?;
        if name.as_str() == word {
            let mut text = String::new(alloc);
            put_procedure(alloc, &mut text, procedure)?;
            return Ok(text);
        }
    }
    said(alloc, "no procedure")
}

/// The methods of all procedures, in their order; and behind a semicolon the procedures of main and of the handlers.
pub fn procedures_text(alloc: Global, whole: &Whole) -> Result<String, NoMemory> {
    let mut text = String::new(alloc);
    let mut behind = "";
    for procedure in whole.program.procedures.as_slice() {
        let name = method_name(alloc, whole, procedure)?;
        text.push_str(behind)?;
        text.push_str(name.as_str())?;
        behind = ", ";
    }
    put_entries(alloc, &mut text, &whole.program)?;
    Ok(text)
}

// The procedures of the entries.
fn put_entries(alloc: Global, text: &mut String, program: &FirmProgram) -> Result<(), NoMemory> {
    let part = format!(in alloc; "; main q{}", program.main)?;
    text.push_str(part.as_str())?;
    for handler in program.handlers.as_slice() {
        let part = format!(in alloc; ", {} q{}", handler.vector, handler.procedure)?;
        text.push_str(part.as_str())?;
    }
    Ok(())
}

/// The cases of all dispatches, in their order.
pub fn dispatches_text(alloc: Global, whole: &Whole) -> Result<String, NoMemory> {
    let mut text = String::new(alloc);
    let mut behind = "";
    for dispatch in whole.program.dispatches.as_slice() {
        text.push_str(behind)?;
        text.push_str("d:")?;
        put_dispatch(alloc, &mut text, dispatch.as_slice())?;
        behind = "; ";
    }
    Ok(text)
}

// The name of a procedure's method, behind that of its owner.
fn method_name(alloc: Global, whole: &Whole, procedure: &Procedure) -> Result<String, NoMemory> {
    let start = &whole.fitted.alive.start;
    let tables = &start.program.tables;
    match tables.methods.as_slice().get(usize::from(procedure.method)) {
        Some(method) => {
            let owner = owner_name(&start.names, tables, method.owner);
            let name = text_of(&start.names, method.name);
            Ok(format!(in alloc; "{owner}.{name}")?)
        }
        None => said(alloc, "no method"),
    }
}

fn owner_name<'a>(names: &'a Names, tables: &Tables, owner: Owner) -> &'a str {
    match owner {
        Owner::InClass(class) => match tables.classes.as_slice().get(usize::from(class)) {
            Some(found) => text_of(names, found.name),
            None => "no class",
        },
        Owner::InComponent(component) => {
            match tables.components.as_slice().get(usize::from(component)) {
                Some(found) => text_of(names, *found),
                None => "no component",
            }
        }
    }
}
