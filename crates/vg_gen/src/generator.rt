// The generated text.
ghost use Rattle.std.specs.Prelude.{◌≡◌, ◌≤◌, ◌++◌, IfOk, OnOk, decimal, length};
ghost use Rattle.vg_base.specs.Limits.{text_limit};
ghost use Rattle.vg_gen.specs.Generated.{base_class, class_line, generated, lines, new_object, object_line};

use crate::pieces;
use itoa::Buffer;
use std::alloc::Global;
use vg_base::{NoMemory, Row};

/// The most classes below the first that a generated program has.
const MOST_CLASSES: u32 = 100;

/// The text of the program with n objects, n from 1 to 500: a class with as many classes below it as there are objects, and at most 100; a
/// list of the objects, which take these classes in turn; and a main that walks along the list and writes the lowest byte of what comes
/// out to a register.
///
/// It refuses nothing but want of memory.
pub fn generate(alloc: Global, n: u32) -> Result<Vec<u8>, NoMemory>
    requires some { 1 ≤ n }
    requires few { n ≤ 500 }
    ensures text { IfOk result (λ text. text.items ≡ generated n) }
    ensures short { IfOk result (λ text. length text.items ≤ text_limit) }
{
    let text = whole_text(alloc, n)?;
    Ok(text)
}

// The text, line by line.
fn whole_text(alloc: Global, n: u32) -> Result<Vec<u8>, NoMemory>
    requires some { 1 ≤ n }
    requires few { n ≤ 500 }
    ensures { IfOk result (λ text. text.items ≡ generated n) }
{
    let classes = n.min(MOST_CLASSES);
    let mut text = Row::new(alloc);
    text.append(pieces::device())?;
    put_base_class(&mut text)?;
    put_classes(&mut text, classes)?;
    text.append(pieces::main_fields())?;
    text.append(pieces::main_constructor())?;
    put_objects(&mut text, classes, n)?;
    text.append(pieces::main_constructed())?;
    text.append(pieces::main_method())?;
    text.append(pieces::program())?;
    Ok(text.into_vec())
}

// Puts the class above all others.
fn put_base_class(text: &mut Row<u8>) -> Result<(), NoMemory>
    ensures { OnOk result (text.new ≡ text.old ++ base_class) }
{
    text.append(pieces::base_fields())?;
    text.append(pieces::base_constructor())?;
    text.append(pieces::base_step())?;
    text.append(pieces::base_dead())
}

// Puts so many classes below it.
fn put_classes(text: &mut Row<u8>, classes: u32) -> Result<(), NoMemory>
    requires { classes ≤ 100 }
    ensures { OnOk result (text.new ≡ text.old ++ lines class_line classes) }
{
    for class in 0..classes {
        put_class(text, class + 1)?;
    }
    Ok(())
}

// Puts the line of a class.
fn put_class(text: &mut Row<u8>, class: u32) -> Result<(), NoMemory>
    ensures { OnOk result (text.new ≡ text.old ++ class_line class) }
{
    text.append(pieces::class_name())?;
    put_number(text, class)?;
    text.append(pieces::class_step())?;
    put_number(text, class)?;
    text.append(pieces::class_end())
}

// Puts so many objects of so many classes.
fn put_objects(text: &mut Row<u8>, classes: u32, objects: u32) -> Result<(), NoMemory>
    requires some { 1 ≤ classes }
    requires few { objects ≤ 500 }
    ensures { OnOk result (text.new ≡ text.old ++ lines (object_line classes) objects) }
{
    for object in 0..objects {
        put_object(text, object % classes + 1, object + 1)?;
    }
    Ok(())
}

// Puts the line of an object.
fn put_object(text: &mut Row<u8>, class: u32, value: u32) -> Result<(), NoMemory>
    ensures { OnOk result (text.new ≡ text.old ++ new_object class value) }
{
    text.append(pieces::object_class())?;
    put_number(text, class)?;
    text.append(pieces::object_value())?;
    put_number(text, value)?;
    text.append(pieces::object_end())
}

// Puts a number in decimal.
fn put_number(text: &mut Row<u8>, number: u32) -> Result<(), NoMemory>
    ensures { OnOk result (text.new ≡ text.old ++ decimal number) }
{
    text.append(Buffer::new().format(number).as_bytes())
}
