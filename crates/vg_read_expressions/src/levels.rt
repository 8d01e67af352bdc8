// Chains of operators of one level, and operators before an operand.
ghost use Rattle.std.specs.Prelude.{◌≡◌, List, ◌∷◌, ℕ, reverse, IfOk, map};
ghost use Rattle.vg_syntax.specs.Reads.{kids_of, chained, level, part_of, rest_of_level, unary, operators};
ghost use Rattle.vg_tree.specs.Held.{node_at};
ghost use Rattle.vg_tree.specs.HeldMade.{made_at, value_at, row_back};

use std::alloc::Global;
use std::mem;
use vg_base::{NoMemory, Place};
use vg_syntax::Kind;
use vg_tree::contents::{kind_in, node_in, operators_in, row_in, taken};
use vg_tree::made::{Made, Value};
use vg_tree::rows::{row_before, row_of, unwritten};
use vg_tree::{Node, TypeTree};

/// An operand, and the parts of a chain behind it: without parts the operand stays as it is.
pub fn chained(alloc: Global, first: &mut Value, parts: Vec<Node>) -> Result<Value, NoMemory>
    ensures { (texts : List (List ℕ)) → IfOk result (λ v. value_at texts v ≡ chained (value_at texts first.old) (row_back texts parts.items)) }
{
    if parts.is_empty() {
        return Ok(taken(first));
    }
    let place = first.place;
    let operand = Box::new(alloc, node_in(&mut first.made))?;
    let row = Box::new(alloc, row_of(parts))?;
    Ok(Value {
        place,
        made: Made::Tree(Node::Chain(place, operand, row)),
    })
}

/// A level of operators: its first operand, and the parts behind it.
pub fn level(alloc: Global, kids: &mut [Value]) -> Result<Value, NoMemory>
    ensures { (texts : List (List ℕ)) → IfOk result (λ v. value_at texts v ≡ level (kids_of (map (value_at texts) kids.old))) }
{
    match kids {
        [first, rest] => chained(alloc, first, row_in(alloc, &mut rest.made)),
        _ => Ok(unwritten(Made::Absent)),
    }
}

/// A part of a chain: an operator with its operand, or a cast or a type test with its type.
pub fn part_of(
    alloc: Global,
    place: Place,
    operator: Kind,
    operand: &mut Made,
) -> Result<Node, NoMemory>
    ensures { (texts : List (List ℕ)) → IfOk result (λ n. node_at texts n ≡ part_of place operator (made_at texts operand.old)) }
{
    match operand {
        Made::Type(type_) => {
            let type_ = mem::replace(type_, TypeTree::Nothing);
            Ok(Node::TypePart(place, operator, type_))
        }
        other => {
            let other = Box::new(alloc, node_in(other))?;
            Ok(Node::Part(place, operator, other))
        }
    }
}

/// One more part of a chain, at the front of those behind it.
pub fn rest_of_level(alloc: Global, kids: &mut [Value]) -> Result<Value, NoMemory>
    ensures { (texts : List (List ℕ)) → IfOk result (λ v. value_at texts v ≡ rest_of_level (kids_of (map (value_at texts) kids.old))) }
{
    match kids {
        [operator, operand, rest] => {
            let place = operator.place;
            let part = part_of(alloc, place, kind_in(&operator.made), &mut operand.made)?;
            row_before(alloc, place, part, &mut rest.made)
        }
        _ => Ok(unwritten(Made::Row(Vec::new(alloc)))),
    }
}

/// Operators from the last to the first, with one more before them.
fn with_operator(operators: Vec<Kind>, operator: Kind) -> Result<Vec<Kind>, NoMemory>
    ensures { IfOk result (λ v. reverse v.items ≡ operator ∷ reverse operators.items) }
{
    let mut operators = operators;
    operators.push(operator)?;
    Ok(operators)
}

/// An operand, and the operators before it.
pub fn unary(alloc: Global, kids: &mut [Value]) -> Result<Value, NoMemory>
    ensures { (texts : List (List ℕ)) → IfOk result (λ v. value_at texts v ≡ unary (kids_of (map (value_at texts) kids.old))) }
{
    match kids {
        [operand] => Ok(taken(operand)),
        [operator, rest, operand] => {
            let place = operator.place;
            let behind = operators_in(alloc, &mut rest.made);
            let mut operators = with_operator(behind, kind_in(&operator.made))?;
            operators.reverse();
            let operand = Box::new(alloc, node_in(&mut operand.made))?;
            Ok(Value {
                place,
                made: Made::Tree(Node::Unary(place, operators, operand)),
            })
        }
        _ => Ok(unwritten(Made::Absent)),
    }
}

/// One more operator before an operand, at the front of those behind it.
pub fn operators(alloc: Global, kids: &mut [Value]) -> Result<Value, NoMemory>
    ensures { (texts : List (List ℕ)) → IfOk result (λ v. value_at texts v ≡ operators (kids_of (map (value_at texts) kids.old))) }
{
    match kids {
        [operator, rest] => {
            let behind = operators_in(alloc, &mut rest.made);
            let operators = with_operator(behind, kind_in(&operator.made))?;
            Ok(Value {
                place: operator.place,
                made: Made::Operators(operators),
            })
        }
        _ => Ok(unwritten(Made::Operators(Vec::new(alloc)))),
    }
}
