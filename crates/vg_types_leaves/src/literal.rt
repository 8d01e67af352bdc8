// Literals.
ghost use Rattle.std.specs.Prelude.{◌≡◌, ◌+◌, ◌<◌, ◌^◌, ℕ, List, Some, is_some, IfOk, IfSome};
ghost use Rattle.vg_syntax.specs.Reads.{spot};
ghost use Rattle.vg_tree.specs.Held.{text_at};
ghost use Rattle.vg_source.specs.Resolved.{Fresh};
ghost use Rattle.vg_rules.specs.Bodies.{has_this};
ghost use Rattle.vg_core.specs.declared.program.Owner.TheVariants.{InClass};
ghost use Rattle.vg_core.specs.HeldProgram.{code_of};
ghost use Rattle.vg_types_tables.specs.declared.declared.Declared.{Declared as SpecDeclared};
ghost use Rattle.vg_types_tables.specs.Views.{owner_view};
ghost use Rattle.vg_types_tables.specs.declared.judged.Head.TheVariants.{Nothing};
ghost use Rattle.vg_types_tables.specs.Declares.{Declares};
ghost use Rattle.vg_types_tables.specs.Promises.{IsBody, Leads};
ghost use Rattle.vg_types_leaves.specs.Nodes.{number_node, char_node, string_node, this_node};
ghost use Rattle.vg_types_leaves.specs.Judgements.{Behind, HasValue};

use crate::numeral::{byte_of, decimal, hexadecimal};
use crate::single::{leaf, put};
use vg_base::{Name, Names, NodeId, Place, Refusal};
use vg_core::{CoreType, CoreValue, Owner, Step};
use vg_tree::Node;
use vg_types_numbers::is_hexadecimal;
use vg_types_tables::{BodyKind, Declared, Locals, Standing, literal_of};
use vg_types_views::{Broken, text_of};

/// A number: rule 13.
pub fn number(
    names: &Names,
    root: &Node,
    declared: &Declared,
    body: BodyKind,
    locals: &Locals,
    place: Place,
    digits: Name,
    id: u32,
) -> Result<Standing, Refusal<Broken>>
    requires { id + 1 < 2 ^ 32 }
    ensures judged { Behind names.now root.now declared.now body locals.now (number_node id (spot place) (text_at names.now digits)) Fresh result }
    ensures typed { IfOk result (λ j. Leads declared.now.tables body locals.now Nothing (code_of j.code) j.head) }
    ensures value { IfOk result (λ j. HasValue j.head) }
    ensures next { IfOk result (λ j. j.next ≡ id + 1) }
{
    let token = text_of(names, digits);
    if is_hexadecimal(token) {
        match hexadecimal(token) {
            Some((width, bits)) => Ok(put(
                declared,
                body,
                locals,
                CoreType::RawType(width),
                CoreValue::Raw(width, bits),
                id,
            )),
            None => Err(Refusal::Fault(Broken {
                rule: 13,
                node: NodeId(id),
            })),
        }
    } else {
        match decimal(token) {
            Some(value) => Ok(put(
                declared,
                body,
                locals,
                CoreType::IntType,
                CoreValue::Int(value),
                id,
            )),
            None => Err(Refusal::Fault(Broken {
                rule: 13,
                node: NodeId(id),
            })),
        }
    }
}

/// A char.
pub fn character(
    names: &Names,
    root: &Node,
    declared: &Declared,
    body: BodyKind,
    locals: &Locals,
    place: Place,
    spelled: Name,
    id: u32,
) -> Result<Standing, Refusal<Broken>>
    requires { id + 1 < 2 ^ 32 }
    ensures judged { Behind names.now root.now declared.now body locals.now (char_node id (spot place) (text_at names.now spelled)) Fresh result }
    ensures typed { IfOk result (λ j. Leads declared.now.tables body locals.now Nothing (code_of j.code) j.head) }
    ensures value { IfOk result (λ j. HasValue j.head) }
    ensures next { IfOk result (λ j. j.next ≡ id + 1) }
{
    match byte_of(text_of(names, spelled)) {
        Some(byte) => Ok(put(
            declared,
            body,
            locals,
            CoreType::CharType,
            CoreValue::Char(byte),
            id,
        )),
        // No tree of a text has this: its token is no char.
        None => Err(Refusal::NoMemory),
    }
}

/// A string.
pub fn string(
    names: &Names,
    root: &Node,
    declared: &Declared,
    body: BodyKind,
    locals: &Locals,
    place: Place,
    spelled: Name,
    id: u32,
) -> Result<Standing, Refusal<Broken>>
    requires declares { Declares names.now root.now declared.now }
    requires room { id + 1 < 2 ^ 32 }
    ensures judged { Behind names.now root.now declared.now body locals.now (string_node id (spot place) (text_at names.now spelled)) Fresh result }
    ensures typed { IfOk result (λ j. Leads declared.now.tables body locals.now Nothing (code_of j.code) j.head) }
    ensures value { IfOk result (λ j. HasValue j.head) }
    ensures next { IfOk result (λ j. j.next ≡ id + 1) }
{
    match literal_of(names, root, declared, id) {
        Some(number) => Ok(leaf(
            declared,
            body,
            locals,
            CoreType::ArrayType(declared.tables.char_type),
            Step::Literal(number),
            id,
        )),
        // The tables have all string literals of the text.
        None => Err(Refusal::NoMemory),
    }
}

/// The receiver: rule 15.
pub fn this_object(
    names: &Names,
    root: &Node,
    declared: &Declared,
    body: BodyKind,
    locals: &Locals,
    place: Place,
    id: u32,
) -> Result<Standing, Refusal<Broken>>
    requires body { IsBody declared.now.tables body }
    requires room { id + 1 < 2 ^ 32 }
    ensures judged { Behind names.now root.now declared.now body locals.now (this_node id (spot place)) Fresh result }
    ensures typed { IfOk result (λ j. Leads declared.now.tables body locals.now Nothing (code_of j.code) j.head) }
    ensures value { IfOk result (λ j. HasValue j.head) }
    ensures next { IfOk result (λ j. j.next ≡ id + 1) }
{
    match class_around(body.owner) {
        Some(class) => Ok(leaf(
            declared,
            body,
            locals,
            CoreType::ClassType(class),
            Step::This,
            id,
        )),
        None => Err(Refusal::Fault(Broken {
            rule: 15,
            node: NodeId(id),
        })),
    }
}

// The class of which a body stands.
fn class_around(owner: Option<Owner>) -> Option<u16>
    ensures some { IfSome result (λ class. owner ≡ Some (InClass class)) }
    ensures keeps { (texts : List (List ℕ)) (d : SpecDeclared) → is_some result ≡ has_this (owner_view texts d owner) }
{
    match owner {
        Some(Owner::InClass(class)) => Some(class),
        _ => None,
    }
}
