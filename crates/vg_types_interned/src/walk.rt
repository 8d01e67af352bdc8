// All types of a text.
ghost use Rattle.std.specs.Prelude.{◌≡◌, OnOk};

use crate::making::{intern_function, intern_params, intern_type};
use crate::table::Types;
use vg_base::{Names, NoMemory};
use vg_core::CoreType;
use vg_tree::{Node, Param, TypeTree};

/// Makes the types that are written at and below a node, the function types of its methods, and the types of its literals and new arrays.
#[cycle(walk)]
pub fn intern_node(types: &mut Types, names: &Names, node: &Node) -> Result<(), NoMemory>
    ensures { OnOk result (types.new.classes ≡ types.old.classes) }
{
    match node {
        Node::Row(nodes) => intern_nodes(types, names, nodes.as_slice()),
        Node::Arms(nodes) => intern_nodes(types, names, nodes.as_slice()),
        Node::FieldDecl(_, _, type_, a) => {
            intern_type(types, names, type_)?;
            intern_node(types, names, a)
        }
        Node::MethodDecl(_, _, params, value, a) => {
            intern_method(types, names, params.as_slice(), value)?;
            intern_node(types, names, a)
        }
        Node::ConstructorDecl(_, params, _, a, b) => {
            intern_params(types, names, params.as_slice())?;
            intern_node(types, names, a)?;
            intern_node(types, names, b)
        }
        Node::Local(_, _, type_, a) => {
            intern_type(types, names, type_)?;
            intern_node(types, names, a)
        }
        Node::NewArray(_, element, a) => {
            intern_array(types, names, element)?;
            intern_node(types, names, a)
        }
        Node::TypePart(_, _, type_) => {
            intern_type(types, names, type_)?;
            Ok(())
        }
        Node::StringLiteral(_, _) => intern_array(types, names, &TypeTree::Char),
        Node::Text(_, a) => intern_node(types, names, a),
        Node::ClassDecl(_, _, _, a) => intern_node(types, names, a),
        Node::ComponentDecl(_, _, a) => intern_node(types, names, a),
        Node::Block(_, a) => intern_node(types, names, a),
        Node::Return(_, a) => intern_node(types, names, a),
        Node::Eval(_, a) => intern_node(types, names, a),
        Node::NewObject(_, _, a) => intern_node(types, names, a),
        Node::Unary(_, _, a) => intern_node(types, names, a),
        Node::Part(_, _, a) => intern_node(types, names, a),
        Node::Index(_, a) => intern_node(types, names, a),
        Node::Call(_, a) => intern_node(types, names, a),
        Node::Pair(a, b) => {
            intern_node(types, names, a)?;
            intern_node(types, names, b)
        }
        Node::If(_, a, b) => {
            intern_node(types, names, a)?;
            intern_node(types, names, b)
        }
        Node::While(_, a, b) => {
            intern_node(types, names, a)?;
            intern_node(types, names, b)
        }
        Node::Assign(_, a, b) => {
            intern_node(types, names, a)?;
            intern_node(types, names, b)
        }
        Node::Chain(_, a, b) => {
            intern_node(types, names, a)?;
            intern_node(types, names, b)
        }
        Node::Postfix(_, a, b) => {
            intern_node(types, names, a)?;
            intern_node(types, names, b)
        }
        Node::For(_, a, b, c, d) => {
            intern_node(types, names, a)?;
            intern_node(types, names, b)?;
            intern_node(types, names, c)?;
            intern_node(types, names, d)
        }
        _ => Ok(()),
    }
}

// The types of nodes.
#[cycle(walk)]
fn intern_nodes(types: &mut Types, names: &Names, nodes: &[Node]) -> Result<(), NoMemory>
    ensures { OnOk result (types.new.classes ≡ types.old.classes) }
{
    'nodes: for node in nodes {
        intern_node(types, names, node)?;
    }
    Ok(())
}

// The function type of a method.
fn intern_method(
    types: &mut Types,
    names: &Names,
    params: &[Param],
    value: &TypeTree,
) -> Result<(), NoMemory>
    ensures { OnOk result (types.new.classes ≡ types.old.classes) }
{
    let params = intern_params(types, names, params)?;
    let value = intern_type(types, names, value)?;
    intern_function(types, params, value)?;
    Ok(())
}

// The type of the arrays of this type.
fn intern_array(types: &mut Types, names: &Names, element: &TypeTree) -> Result<(), NoMemory>
    ensures { OnOk result (types.new.classes ≡ types.old.classes) }
{
    if let Some(element) = intern_type(types, names, element)? {
        types.intern(CoreType::ArrayType(element))?;
    }
    Ok(())
}
