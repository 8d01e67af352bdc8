// The outline of a typed program.
use std::alloc::Global;
use vg_base::{Names, NoMemory};
use vg_core::{Body, Class, Method, Owner, Program, Tables};
use vg_types_views::text_of;

/// The outline of a program: its classes, each with the number of classes above it, of the fields and of the methods of its objects, and of the locals of
/// its construction; its components, each with the number of the locals of its initialisation; its methods, each with the number of its parameters, of
/// its other locals, and of the nodes of its body; how many fields of components there are, and literals; and then main and the handlers.
pub fn outline(alloc: Global, names: &Names, program: &Program) -> Result<String, NoMemory> {
    let mut text = String::new(alloc);
    for (number, class) in program.tables.classes.as_slice().iter().enumerate() {
        put_class(
            alloc,
            &mut text,
            names,
            class,
            program.makings.as_slice().get(number),
        )?;
    }
    for (number, component) in program.tables.components.as_slice().iter().enumerate() {
        let others = others_of(program.starts.as_slice().get(number));
        let part = format!(in alloc; "component {} {others}, ", text_of(names, *component))?;
        text.push_str(part.as_str())?;
    }
    for (number, method) in program.tables.methods.as_slice().iter().enumerate() {
        put_method(
            alloc,
            &mut text,
            names,
            &program.tables,
            method,
            program.methods.as_slice().get(number),
        )?;
    }
    let globals = program.tables.globals.len();
    let literals = program.tables.literals.len();
    let part = format!(in alloc; "{globals} globals, {literals} literals, main ")?;
    text.push_str(part.as_str())?;
    put_name(alloc, &mut text, names, &program.tables, program.main)?;
    for handler in program.handlers.as_slice() {
        let part = format!(in alloc; ", {} ", handler.vector)?;
        text.push_str(part.as_str())?;
        put_name(alloc, &mut text, names, &program.tables, handler.method)?;
    }
    Ok(text)
}

// A class, with its construction.
fn put_class(
    alloc: Global,
    text: &mut String,
    names: &Names,
    class: &Class,
    making: Option<&Body>,
) -> Result<(), NoMemory> {
    let above = class.above.len().saturating_sub(1);
    let fields = class.fields.len();
    let methods = class.methods.len();
    let others = others_of(making);
    let part = format!(in alloc;
        "class {} {above} {fields} {methods} {others}, ",
        text_of(names, class.name)
    )?;
    text.push_str(part.as_str())?;
    Ok(())
}

// A method, with its body.
fn put_method(
    alloc: Global,
    text: &mut String,
    names: &Names,
    tables: &Tables,
    method: &Method,
    body: Option<&Body>,
) -> Result<(), NoMemory> {
    text.push_str("method ")?;
    put_owner(text, names, tables, method)?;
    let params = method.params.len();
    let others = others_of(body);
    let part = format!(in alloc; " {params} {others} {}, ", method.nodes)?;
    text.push_str(part.as_str())?;
    Ok(())
}

// How many locals a body has behind its parameters.
fn others_of(body: Option<&Body>) -> usize {
    match body {
        Some(body) => body.others.len(),
        None => 999,
    }
}

// The name of the method of a number, behind that of its owner.
fn put_name(
    alloc: Global,
    text: &mut String,
    names: &Names,
    tables: &Tables,
    number: u16,
) -> Result<(), NoMemory> {
    match tables.methods.as_slice().get(usize::from(number)) {
        Some(method) => put_owner(text, names, tables, method),
        None => {
            let part = format!(in alloc; "no method {number}")?;
            text.push_str(part.as_str())?;
            Ok(())
        }
    }
}

// The name of a method, behind that of its owner.
fn put_owner(
    text: &mut String,
    names: &Names,
    tables: &Tables,
    method: &Method,
) -> Result<(), NoMemory> {
    let owner = match method.owner {
        Owner::InClass(class) => match tables.classes.as_slice().get(usize::from(class)) {
            Some(class) => text_of(names, class.name),
            None => "no class",
        },
        Owner::InComponent(component) => {
            match tables.components.as_slice().get(usize::from(component)) {
                Some(component) => text_of(names, *component),
                None => "no component",
            }
        }
    };
    text.push_str(owner)?;
    text.push_str(".")?;
    text.push_str(text_of(names, method.name))?;
    Ok(())
}
