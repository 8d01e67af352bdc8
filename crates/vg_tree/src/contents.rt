// What one of a part's kids holds, taken out of it; of another kind it holds nothing. The text of the name `nameless` is to be empty.
ghost use Rattle.std.specs.Prelude.{◌≡◌, List, [], ℕ, map, reverse, length};
ghost use Rattle.std.specs.Option.{option_map};
ghost use Rattle.vg_syntax.specs.Made.{text_in, kind_in, node_in, row_in, type_in, types_in, param_in, params_in, operators_in, component_in, method_in};
ghost use Rattle.vg_syntax.specs.Made.{arms_in, otherwise_in, count_in, suffixes_in, first_in, condition_in, next_in, above_in, is_row};
ghost use Rattle.vg_tree.specs.Held.{text_at, type_at, param_at, node_at};
ghost use Rattle.vg_tree.specs.HeldMade.{row_back, arms_back, types_back, made_at};

use crate::made::{Made, Value};
use crate::{Node, Param, TypeTree};
use std::alloc::Global;
use std::mem;
use vg_base::{Name, Place};
use vg_syntax::Kind;

/// The whole value.
pub fn taken(kid: &mut Value) -> Value
    ensures { result ≡ kid.old }
{
    let place = kid.place;
    mem::replace(
        kid,
        Value {
            place,
            made: Made::Absent,
        },
    )
}

/// All that is held.
pub fn all_in(made: &mut Made) -> Made
    ensures { result ≡ made.old }
{
    mem::replace(made, Made::Absent)
}

/// The kind of the token.
pub fn kind_in(made: &Made) -> Kind
    ensures { (texts : List (List ℕ)) → result ≡ kind_in (made_at texts made.now) }
{
    match made {
        Made::Word(kind, _) => *kind,
        _ => Kind::Unknown,
    }
}

/// The name of the token's text.
pub fn text_in(nameless: Name, made: &Made) -> Name
    ensures { (texts : List (List ℕ)) → text_at texts nameless ≡ [] → text_at texts result ≡ text_in (made_at texts made.now) }
{
    match made {
        Made::Word(_, text) => *text,
        _ => nameless,
    }
}

/// The name of a class above, where one is written.
pub fn above_in(made: &Made) -> Option<Name>
    ensures { (texts : List (List ℕ)) → option_map (text_at texts) result ≡ above_in (made_at texts made.now) }
{
    match made {
        Made::Word(_, text) => Some(*text),
        _ => None,
    }
}

/// Whether a row is written at all.
pub fn is_row(made: &Made) -> bool
    ensures { (texts : List (List ℕ)) → result ≡ is_row (made_at texts made.now) }
{
    match made {
        Made::Row(_) => true,
        _ => false,
    }
}

/// The component that an entry names.
pub fn component_in(nameless: Name, made: &Made) -> Name
    ensures { (texts : List (List ℕ)) → text_at texts nameless ≡ [] → text_at texts result ≡ component_in (made_at texts made.now) }
{
    match made {
        Made::Pair(component, _) => *component,
        _ => nameless,
    }
}

/// The method that an entry names.
pub fn method_in(nameless: Name, made: &Made) -> Name
    ensures { (texts : List (List ℕ)) → text_at texts nameless ≡ [] → text_at texts result ≡ method_in (made_at texts made.now) }
{
    match made {
        Made::Pair(_, method) => *method,
        _ => nameless,
    }
}

/// The node.
pub fn node_in(made: &mut Made) -> Node
    ensures { (texts : List (List ℕ)) → node_at texts result ≡ node_in (made_at texts made.old) }
{
    match made {
        Made::Tree(node) => mem::replace(node, Node::Nothing),
        _ => Node::Nothing,
    }
}

/// The row of nodes.
pub fn row_in(alloc: Global, made: &mut Made) -> Vec<Node>
    ensures { (texts : List (List ℕ)) → row_back texts result.items ≡ row_in (made_at texts made.old) }
{
    match made {
        Made::Row(nodes) => mem::replace(nodes, Vec::new(alloc)),
        _ => Vec::new(alloc),
    }
}

/// The type.
pub fn type_in(made: &mut Made) -> TypeTree
    ensures { (texts : List (List ℕ)) → type_at texts result ≡ type_in (made_at texts made.old) }
{
    match made {
        Made::Type(type_) => mem::replace(type_, TypeTree::Nothing),
        _ => TypeTree::Nothing,
    }
}

/// The row of types.
pub fn types_in(alloc: Global, made: &mut Made) -> Vec<TypeTree>
    ensures { (texts : List (List ℕ)) → types_back texts result.items ≡ types_in (made_at texts made.old) }
{
    match made {
        Made::Types(types) => mem::replace(types, Vec::new(alloc)),
        _ => Vec::new(alloc),
    }
}

/// The parameter.
pub fn param_in(nameless: Name, made: &mut Made) -> Param
    ensures { (texts : List (List ℕ)) → text_at texts nameless ≡ [] → param_at texts result ≡ param_in (made_at texts made.old) }
{
    let nothing = Param {
        name: nameless,
        type_: TypeTree::Nothing,
    };
    match made {
        Made::Typed(param) => mem::replace(param, nothing),
        _ => nothing,
    }
}

/// The parameters, from the last to the first.
pub fn params_in(alloc: Global, made: &mut Made) -> Vec<Param>
    ensures { (texts : List (List ℕ)) → map (param_at texts) (reverse result.items) ≡ params_in (made_at texts made.old) }
{
    match made {
        Made::Params(params) => mem::replace(params, Vec::new(alloc)),
        _ => Vec::new(alloc),
    }
}

/// The operators, from the last to the first.
pub fn operators_in(alloc: Global, made: &mut Made) -> Vec<Kind>
    ensures { (texts : List (List ℕ)) → reverse result.items ≡ operators_in (made_at texts made.old) }
{
    match made {
        Made::Operators(kinds) => mem::replace(kinds, Vec::new(alloc)),
        _ => Vec::new(alloc),
    }
}

/// The pairs, from the last to the first, and the last block.
pub fn arms_in(alloc: Global, made: &mut Made) -> (Vec<Node>, Node)
    ensures arms { (texts : List (List ℕ)) → arms_back texts result.0.items ≡ arms_in (made_at texts made.old) }
    ensures otherwise { (texts : List (List ℕ)) → node_at texts result.1 ≡ otherwise_in (made_at texts made.old) }
{
    match made {
        Made::Arms(arms, otherwise) => (
            mem::replace(arms, Vec::new(alloc)),
            mem::replace(otherwise, Node::Nothing),
        ),
        _ => (Vec::new(alloc), Node::Nothing),
    }
}

/// The three fields of a `for`.
pub fn fields_in(made: &mut Made) -> (Node, Node, Node)
    ensures first { (texts : List (List ℕ)) → node_at texts result.0 ≡ first_in (made_at texts made.old) }
    ensures condition { (texts : List (List ℕ)) → node_at texts result.1 ≡ condition_in (made_at texts made.old) }
    ensures next { (texts : List (List ℕ)) → node_at texts result.2 ≡ next_in (made_at texts made.old) }
{
    match made {
        Made::Header(first, condition, next) => (
            mem::replace(first, Node::Nothing),
            mem::replace(condition, Node::Nothing),
            mem::replace(next, Node::Nothing),
        ),
        _ => (Node::Nothing, Node::Nothing, Node::Nothing),
    }
}

/// The array levels, and the suffixes behind them.
pub fn levels_in(alloc: Global, made: &mut Made) -> (Vec<Place>, Vec<Node>)
    ensures count { (texts : List (List ℕ)) → length result.0.items ≡ count_in (made_at texts made.old) }
    ensures suffixes { (texts : List (List ℕ)) → row_back texts result.1.items ≡ suffixes_in (made_at texts made.old) }
{
    match made {
        Made::Levels(levels, suffixes) => (
            mem::replace(levels, Vec::new(alloc)),
            mem::replace(suffixes, Vec::new(alloc)),
        ),
        _ => (Vec::new(alloc), Vec::new(alloc)),
    }
}
