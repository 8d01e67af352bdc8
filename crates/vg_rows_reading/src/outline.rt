// The outline of a tree.
use std::alloc::Global;
use vg_base::{NoMemory, Place};
use vg_tree::Node;

/// Writes a node and all below it, in preorder: a word for each node, with its column.
pub fn outline(alloc: Global, node: &Node, out: &mut String) -> Result<(), NoMemory> {
    put_word(alloc, node, out)?;
    match node {
        Node::Row(nodes) => {
            for node in nodes.as_slice() {
                outline(alloc, node, out)?;
            }
            Ok(())
        }
        Node::Arms(pairs) => {
            for pair in pairs.as_slice() {
                outline(alloc, pair, out)?;
            }
            Ok(())
        }
        Node::Text(_, declarations) => outline(alloc, declarations, out),
        Node::ClassDecl(_, _, _, members) => outline(alloc, members, out),
        Node::ConstructorDecl(_, _, _, _, body) => outline(alloc, body, out),
        Node::Block(_, statements) => outline(alloc, statements, out),
        Node::Eval(_, expression) => outline(alloc, expression, out),
        Node::Index(_, index) => outline(alloc, index, out),
        Node::Call(_, arguments) => outline(alloc, arguments, out),
        Node::Unary(_, _, operand) => outline(alloc, operand, out),
        Node::Pair(condition, block) => {
            outline(alloc, condition, out)?;
            outline(alloc, block, out)
        }
        Node::If(_, pairs, otherwise) => {
            outline(alloc, pairs, out)?;
            outline(alloc, otherwise, out)
        }
        Node::Assign(_, target, value) => {
            outline(alloc, target, out)?;
            outline(alloc, value, out)
        }
        Node::Postfix(_, operand, suffixes) => {
            outline(alloc, operand, out)?;
            outline(alloc, suffixes, out)
        }
        _ => Ok(()),
    }
}

// Writes the word of a node, without what lies below it.
fn put_word(alloc: Global, node: &Node, out: &mut String) -> Result<(), NoMemory> {
    match node {
        Node::Nothing | Node::Row(_) | Node::Arms(_) => Ok(()),
        Node::Text(_, _) | Node::ClassDecl(_, _, _, _) => Ok(()),
        Node::ConstructorDecl(_, _, _, _, _) => Ok(()),
        Node::Pair(_, _) => {
            out.push_str("Pair ")?;
            Ok(())
        }
        Node::Block(place, _) => word(alloc, out, "Block", place),
        Node::If(place, _, _) => word(alloc, out, "If", place),
        Node::Assign(place, _, _) => word(alloc, out, "Assign", place),
        Node::Eval(place, _) => word(alloc, out, "Eval", place),
        Node::Postfix(place, _, _) => word(alloc, out, "Postfix", place),
        Node::Index(place, _) => word(alloc, out, "Index", place),
        Node::Call(place, _) => word(alloc, out, "Call", place),
        Node::Unary(place, operators, _) => {
            let name = if operators.len() == 1 { "One" } else { "More" };
            word(alloc, out, name, place)
        }
        Node::Name(place, _) => word(alloc, out, "Name", place),
        Node::Member(place, _) => word(alloc, out, "Member", place),
        Node::Number(place, _) => word(alloc, out, "Number", place),
        Node::CharLiteral(place, _) => word(alloc, out, "CharLiteral", place),
        _ => {
            out.push_str("another ")?;
            Ok(())
        }
    }
}

fn word(alloc: Global, out: &mut String, name: &str, place: &Place) -> Result<(), NoMemory> {
    let column = place.col;
    let word = format!(in alloc; "{name}@{column} ")?;
    out.push_str(word.as_str())?;
    Ok(())
}
