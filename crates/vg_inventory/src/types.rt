// Types as texts.
use crate::known::Known;
use crate::names::put_class;
use itoa::Buffer;
use std::alloc::Global;
use vg_base::{NoMemory, Row};
use vg_core::CoreType;

// What is left to write of a type.
#[derive(Clone, Copy)]
enum Part {
    Text(&'static str),
    /// The type of this number.
    Whole(u32),
    /// The same, in parentheses where it is a function type.
    Plain(u32),
    /// The result of a function type.
    Result(u32),
    /// A row of types; whether one was written before it.
    Types(u32, bool),
}

/// Puts the type of the arrays of these elements behind a text, as it is written in a program, with a space behind each comma and each colon.
pub fn put_array_type(
    alloc: Global,
    text: &mut Row<u8>,
    known: Known<'_>,
    elements: u32,
) -> Result<(), NoMemory> {
    let mut parts = Vec::new(alloc);
    parts.push(Part::Text("[]"))?;
    parts.push(Part::Plain(elements))?;
    // A type has fewer parts than a text of 262,144 bytes has tokens, four for each.
    for _part in 0..1_048_576u32 {
        match parts.pop() {
            Some(part) => put_part(text, known, &mut parts, part)?,
            None => return Ok(()),
        }
    }
    Ok(())
}

// Puts a part, or what it consists of in its place, the last of it first.
fn put_part(
    text: &mut Row<u8>,
    known: Known<'_>,
    parts: &mut Vec<Part>,
    part: Part,
) -> Result<(), NoMemory> {
    match part {
        Part::Text(words) => text.append(words.as_bytes()),
        Part::Whole(number) => put_type(text, known, parts, type_at(known, number)),
        Part::Plain(number) => put_plain(text, known, parts, number),
        Part::Result(number) => match type_at(known, number) {
            CoreType::NoType => Ok(()),
            _ => {
                parts.push(Part::Plain(number))?;
                text.append(b": ")
            }
        },
        Part::Types(number, is_behind) => put_types(text, known, parts, number, is_behind),
    }
}

// The type of a number.
fn type_at(known: Known<'_>, number: u32) -> CoreType {
    match known.program.tables.types.as_slice().get(number as usize) {
        Some(found) => *found,
        None => CoreType::NoType,
    }
}

fn put_type(
    text: &mut Row<u8>,
    known: Known<'_>,
    parts: &mut Vec<Part>,
    type_: CoreType,
) -> Result<(), NoMemory> {
    match type_ {
        CoreType::IntType => text.append(b"int"),
        CoreType::BoolType => text.append(b"bool"),
        CoreType::CharType => text.append(b"char"),
        CoreType::RawType(bits) => {
            text.append(b"raw.")?;
            text.append(Buffer::new().format(bits).as_bytes())
        }
        CoreType::ClassType(class) => put_class(text, known, class),
        CoreType::ArrayType(elements) => {
            parts.push(Part::Text("[]"))?;
            parts.push(Part::Plain(elements))?;
            Ok(())
        }
        CoreType::FunctionType(params, result) => {
            parts.push(Part::Result(result))?;
            parts.push(Part::Text(")"))?;
            parts.push(Part::Types(params, false))?;
            text.append(b"function(")
        }
        CoreType::NullType | CoreType::NoType | CoreType::MoreTypes(_, _) => Ok(()),
    }
}

fn put_plain(
    text: &mut Row<u8>,
    known: Known<'_>,
    parts: &mut Vec<Part>,
    number: u32,
) -> Result<(), NoMemory> {
    let type_ = type_at(known, number);
    match type_ {
        CoreType::FunctionType(_, _) => {
            parts.push(Part::Text(")"))?;
            parts.push(Part::Whole(number))?;
            text.append(b"(")
        }
        _ => put_type(text, known, parts, type_),
    }
}

fn put_types(
    text: &mut Row<u8>,
    known: Known<'_>,
    parts: &mut Vec<Part>,
    number: u32,
    is_behind: bool,
) -> Result<(), NoMemory> {
    match type_at(known, number) {
        CoreType::MoreTypes(first, more) => {
            parts.push(Part::Types(more, true))?;
            parts.push(Part::Whole(first))?;
            if is_behind {
                text.append(b", ")
            } else {
                Ok(())
            }
        }
        _ => Ok(()),
    }
}
