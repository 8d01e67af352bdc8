// Operands with suffixes: members, indices and calls behind them.
ghost use Rattle.std.specs.Prelude.{◌≡◌, List, [], ℕ, IfOk, map};
ghost use Rattle.vg_syntax.specs.Reads.{kids_of, suffixed, fresh, postfix_of, postfix, suffix_of, suffixes};
ghost use Rattle.vg_tree.specs.Held.{text_at, node_at};
ghost use Rattle.vg_tree.specs.HeldMade.{made_at, value_at, row_back};

use std::alloc::Global;
use std::mem;
use vg_base::{Name, NoMemory, Place};
use vg_syntax::Kind;
use vg_tree::contents::{kind_in, node_in, row_in, taken, text_in};
use vg_tree::made::{Made, Value};
use vg_tree::rows::{row_before, row_of, unwritten};
use vg_tree::{Node, TypeTree};

/// An operand, and the suffixes behind it: without suffixes the operand stays as it is.
pub fn suffixed(alloc: Global, operand: &mut Value, suffixes: Vec<Node>) -> Result<Value, NoMemory>
    ensures { (texts : List (List ℕ)) → IfOk result (λ v. value_at texts v ≡ suffixed (value_at texts operand.old) (row_back texts suffixes.items)) }
{
    if suffixes.is_empty() {
        return Ok(taken(operand));
    }
    let place = operand.place;
    let primary = Box::new(alloc, node_in(&mut operand.made))?;
    let row = Box::new(alloc, row_of(suffixes))?;
    Ok(Value {
        place,
        made: Made::Tree(Node::Postfix(place, primary, row)),
    })
}

/// A new object or a new array at its `new`, and the suffixes behind it.
pub fn fresh(alloc: Global, place: Place, made: &mut Made) -> Result<Value, NoMemory>
    ensures { (texts : List (List ℕ)) → IfOk result (λ v. value_at texts v ≡ fresh place (made_at texts made.old)) }
{
    match made {
        Made::Object(name, arguments, suffixes) => {
            let arguments = mem::replace(arguments, Vec::new(alloc));
            let arguments = Box::new(alloc, row_of(arguments))?;
            let mut object = Value {
                place,
                made: Made::Tree(Node::NewObject(place, *name, arguments)),
            };
            suffixed(alloc, &mut object, mem::replace(suffixes, Vec::new(alloc)))
        }
        Made::Array(element, size, suffixes) => {
            let element = mem::replace(element, TypeTree::Nothing);
            let size = Box::new(alloc, mem::replace(size, Node::Nothing))?;
            let mut array = Value {
                place,
                made: Made::Tree(Node::NewArray(place, element, size)),
            };
            suffixed(alloc, &mut array, mem::replace(suffixes, Vec::new(alloc)))
        }
        _ => Ok(Value {
            place,
            made: Made::Absent,
        }),
    }
}

/// What stands behind a `new`, or an operand with its suffixes.
pub fn postfix_of(
    alloc: Global,
    kind: Kind,
    first: &mut Value,
    behind: &mut Value,
) -> Result<Value, NoMemory>
    ensures { (texts : List (List ℕ)) → IfOk result (λ v. value_at texts v ≡ postfix_of kind (value_at texts first.old) (value_at texts behind.old)) }
{
    match kind {
        Kind::New => fresh(alloc, first.place, &mut behind.made),
        _ => suffixed(alloc, first, row_in(alloc, &mut behind.made)),
    }
}

/// An operand with its suffixes.
pub fn postfix(alloc: Global, kids: &mut [Value]) -> Result<Value, NoMemory>
    ensures { (texts : List (List ℕ)) → IfOk result (λ v. value_at texts v ≡ postfix (kids_of (map (value_at texts) kids.old))) }
{
    match kids {
        [first, behind] => postfix_of(alloc, kind_in(&first.made), first, behind),
        _ => Ok(unwritten(Made::Absent)),
    }
}

/// A call of these arguments, or an index.
pub fn suffix_of(alloc: Global, place: Place, made: &mut Made) -> Result<Node, NoMemory>
    ensures { (texts : List (List ℕ)) → IfOk result (λ n. node_at texts n ≡ suffix_of place (made_at texts made.old)) }
{
    match made {
        Made::Row(arguments) => {
            let arguments = mem::replace(arguments, Vec::new(alloc));
            let arguments = Box::new(alloc, row_of(arguments))?;
            Ok(Node::Call(place, arguments))
        }
        index => {
            let index = Box::new(alloc, node_in(index))?;
            Ok(Node::Index(place, index))
        }
    }
}

/// One more suffix, at the front of those behind it.
pub fn suffixes(alloc: Global, nameless: Name, kids: &mut [Value]) -> Result<Value, NoMemory>
    ensures { (texts : List (List ℕ)) → text_at texts nameless ≡ [] → IfOk result (λ v. value_at texts v ≡ suffixes (kids_of (map (value_at texts) kids.old))) }
{
    match kids {
        [dot, name, rest] => {
            let member = Node::Member(dot.place, text_in(nameless, &name.made));
            row_before(alloc, dot.place, member, &mut rest.made)
        }
        [bracketed, rest] => {
            let place = bracketed.place;
            let suffix = suffix_of(alloc, place, &mut bracketed.made)?;
            row_before(alloc, place, suffix, &mut rest.made)
        }
        _ => Ok(unwritten(Made::Row(Vec::new(alloc)))),
    }
}
