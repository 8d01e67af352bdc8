// Rows that are being made.
ghost use Rattle.std.specs.Prelude.{◌≡◌, List, ℕ, map, IfOk};
ghost use Rattle.vg_syntax.specs.Tree.{Then};
ghost use Rattle.vg_syntax.specs.Made.{Row, row_in};
ghost use Rattle.vg_syntax.specs.Reads.{value, kids_of, unwritten, rowed, more_rowed, enclosed, optional, behind_sign};
ghost use Rattle.vg_tree.specs.Held.{node_at};
ghost use Rattle.vg_tree.specs.HeldMade.{row_back, made_at, value_at};

use crate::Node;
use crate::contents::{all_in, node_in, row_in, taken};
use crate::made::{Made, Value};
use std::alloc::Global;
use vg_base::{NoMemory, Place};

/// The node of a row that is made.
pub fn row_of(nodes: Vec<Node>) -> Node
    ensures { (texts : List (List ℕ)) → node_at texts result ≡ row_back texts nodes.items }
{
    let mut nodes = nodes;
    nodes.reverse();
    Node::Row(nodes)
}

/// A row with one more node at its front.
pub fn with_front(nodes: Vec<Node>, node: Node) -> Result<Vec<Node>, NoMemory>
    ensures { (texts : List (List ℕ)) → IfOk result (λ v. row_back texts v.items ≡ Then (node_at texts node) (row_back texts nodes.items)) }
{
    let mut nodes = nodes;
    nodes.push(node)?;
    Ok(nodes)
}

/// The value of a part that is not written.
pub fn unwritten(made: Made) -> Value
    ensures { (texts : List (List ℕ)) → value_at texts result ≡ unwritten (made_at texts made) }
{
    Value {
        place: Place { line: 1, col: 1 },
        made,
    }
}

/// A node before what a row behind it holds.
pub fn row_before(
    alloc: Global,
    place: Place,
    node: Node,
    rest: &mut Made,
) -> Result<Value, NoMemory>
    ensures { (texts : List (List ℕ)) → IfOk result (λ v. value_at texts v ≡ value place (Row (Then (node_at texts node) (row_in (made_at texts rest.old))))) }
{
    let nodes = with_front(row_in(alloc, rest), node)?;
    Ok(Value {
        place,
        made: Made::Row(nodes),
    })
}

/// A first node, and a row behind it.
pub fn rowed(alloc: Global, kids: &mut [Value]) -> Result<Value, NoMemory>
    ensures { (texts : List (List ℕ)) → IfOk result (λ v. value_at texts v ≡ rowed (kids_of (map (value_at texts) kids.old))) }
{
    match kids {
        [first, rest] => row_before(alloc, first.place, node_in(&mut first.made), &mut rest.made),
        _ => Ok(unwritten(Made::Row(Vec::new(alloc)))),
    }
}

/// A node behind a comma, and a row behind it.
pub fn more_rowed(alloc: Global, kids: &mut [Value]) -> Result<Value, NoMemory>
    ensures { (texts : List (List ℕ)) → IfOk result (λ v. value_at texts v ≡ more_rowed (kids_of (map (value_at texts) kids.old))) }
{
    match kids {
        [comma, first, rest] => row_before(
            alloc,
            comma.place,
            node_in(&mut first.made),
            &mut rest.made,
        ),
        _ => Ok(unwritten(Made::Row(Vec::new(alloc)))),
    }
}

/// What stands in brackets, with the place of the first bracket.
pub fn enclosed(kids: &mut [Value]) -> Value
    ensures { (texts : List (List ℕ)) → value_at texts result ≡ enclosed (kids_of (map (value_at texts) kids.old)) }
{
    match kids {
        [left, inner, _] => Value {
            place: left.place,
            made: all_in(&mut inner.made),
        },
        _ => unwritten(Made::Absent),
    }
}

/// The only kid, or no node.
pub fn optional(kids: &mut [Value]) -> Value
    ensures { (texts : List (List ℕ)) → value_at texts result ≡ optional (kids_of (map (value_at texts) kids.old)) }
{
    match kids {
        [kid] => taken(kid),
        _ => unwritten(Made::Tree(Node::Nothing)),
    }
}

/// A node behind its sign, or no node.
pub fn behind_sign(kids: &mut [Value]) -> Value
    ensures { (texts : List (List ℕ)) → value_at texts result ≡ behind_sign (kids_of (map (value_at texts) kids.old)) }
{
    match kids {
        [sign, inner] => Value {
            place: sign.place,
            made: Made::Tree(node_in(&mut inner.made)),
        },
        _ => unwritten(Made::Tree(Node::Nothing)),
    }
}
