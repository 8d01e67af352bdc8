// How the declarations of a text are counted.
ghost use Rattle.std.specs.Prelude.{◌≡◌, ◌<◌, ◌+◌, ◌^◌, false, ℕ, List, [], IfSome, is_some};
ghost use Rattle.vg_syntax.specs.Numbering.{count_nodes};
ghost use Rattle.vg_tree.specs.Held.{node_at, row_at};
ghost use Rattle.vg_types_counts.specs.Tallies.{noted, passed, with_class, with_field, with_method, are_few, tally_member, tally_members};
ghost use Rattle.vg_types_counts.specs.Tallies.{tally_declaration, tally_declarations, first_tally, is_member, has_members, is_row, IsTally};
ghost use Rattle.vg_types_counts.specs.Extents.{IsExtent};

use crate::extent::{Extent, beside, measure};
use crate::refused::limit_of;
use vg_rules::what::What;
use vg_tree::Node;

/// How far the declarations are counted, and the first node past each limit.
#[derive(Clone, Copy, Debug, PartialEq, Eq)]
pub(crate) struct Tally {
    /// The number of the next node.
    pub next: u32,
    pub classes: u32,
    pub methods: u32,
    pub past_classes: Option<u32>,
    pub past_methods: Option<u32>,
    pub past_locals: Option<u32>,
    pub past_height: Option<u32>,
}

/// Before the first declaration of a text.
pub(crate) fn first_tally() -> Tally
    ensures tally { result ≡ first_tally }
    ensures sound { IsTally result }
{
    Tally {
        next: 1,
        classes: 0,
        methods: 0,
        past_classes: None,
        past_methods: None,
        past_locals: None,
        past_height: None,
    }
}

/// Behind all declarations.
pub(crate) fn tally_declarations(so_far: Tally, declarations: &Node) -> Tally
    requires room { so_far.next + count_nodes (node_at [] declarations.now) < 2 ^ 32 }
    requires sound { IsTally so_far }
    ensures tally { (texts : List (List ℕ)) → result ≡ tally_declarations so_far (node_at texts declarations.now) }
{
    let nodes = match row_of(declarations) {
        Some(nodes) => nodes,
        None => return passed(so_far, measure(declarations).nodes),
    };
    let mut tally = so_far;
    'each: for node in nodes {
        tally = tally_declaration(tally, node);
    }
    tally
}

// Behind a declaration.
fn tally_declaration(so_far: Tally, declaration: &Node) -> Tally
    requires room { so_far.next + count_nodes (node_at [] declaration.now) < 2 ^ 32 }
    requires sound { IsTally so_far }
    ensures tally { (texts : List (List ℕ)) → result ≡ tally_declaration so_far (node_at texts declaration.now) }
    ensures next { result.next ≡ so_far.next + count_nodes (node_at [] declaration.now) }
    ensures sound { IsTally result }
{
    match declaration {
        Node::ClassDecl(_, _, _, members) => tally_members(with_class(so_far), members),
        Node::ComponentDecl(_, _, members) => tally_members(with_class(so_far), members),
        _ => past_declaration(so_far, declaration),
    }
}

// Behind members.
fn tally_members(so_far: Tally, members: &Node) -> Tally
    requires room { so_far.next + count_nodes (node_at [] members.now) < 2 ^ 32 }
    requires sound { IsTally so_far }
    ensures tally { (texts : List (List ℕ)) → result ≡ tally_members so_far (node_at texts members.now) }
    ensures next { result.next ≡ so_far.next + count_nodes (node_at [] members.now) }
    ensures sound { IsTally result }
{
    let nodes = match row_of(members) {
        Some(nodes) => nodes,
        None => return passed(so_far, measure(members).nodes),
    };
    let mut tally = so_far;
    'each: for node in nodes {
        tally = tally_member(tally, node);
    }
    tally
}

// Behind a member.
fn tally_member(so_far: Tally, member: &Node) -> Tally
    requires room { so_far.next + count_nodes (node_at [] member.now) < 2 ^ 32 }
    requires sound { IsTally so_far }
    ensures tally { (texts : List (List ℕ)) → result ≡ tally_member so_far (node_at texts member.now) }
    ensures next { result.next ≡ so_far.next + count_nodes (node_at [] member.now) }
    ensures sound { IsTally result }
{
    match member {
        Node::FieldDecl(_, _, _, value) => with_field(so_far, measure(value)),
        Node::MethodDecl(_, _, params, _, body) => {
            let inside = measure(body);
            with_method(so_far, are_few(params.len(), inside.locals), inside)
        }
        Node::ConstructorDecl(_, params, _, arguments, body) => {
            let before = measure(arguments);
            let inside = measure(body);
            with_method(
                so_far,
                are_few(params.len(), inside.locals),
                beside(before, inside),
            )
        }
        _ => past_member(so_far, member),
    }
}

// Past a declaration that has no members.
fn past_declaration(so_far: Tally, declaration: &Node) -> Tally
    requires other { has_members declaration.now ≡ false }
    requires room { so_far.next + count_nodes (node_at [] declaration.now) < 2 ^ 32 }
    requires sound { IsTally so_far }
    ensures tally { (texts : List (List ℕ)) → result ≡ tally_declaration so_far (node_at texts declaration.now) }
    ensures next { result.next ≡ so_far.next + count_nodes (node_at [] declaration.now) }
    ensures sound { IsTally result }
{
    passed(so_far, measure(declaration).nodes)
}

// Past a node that is no member.
fn past_member(so_far: Tally, member: &Node) -> Tally
    requires other { is_member member.now ≡ false }
    requires room { so_far.next + count_nodes (node_at [] member.now) < 2 ^ 32 }
    requires sound { IsTally so_far }
    ensures tally { (texts : List (List ℕ)) → result ≡ tally_member so_far (node_at texts member.now) }
    ensures next { result.next ≡ so_far.next + count_nodes (node_at [] member.now) }
    ensures sound { IsTally result }
{
    passed(so_far, measure(member).nodes)
}

// The nodes of a row.
fn row_of(node: &Node) -> Option<&[Node]>
    ensures some { is_some result ≡ is_row node.now }
    ensures nodes { IfSome result (λ nodes. (texts : List (List ℕ)) → node_at texts node.now ≡ row_at texts nodes.now) }
{
    match node {
        Node::Row(nodes) => Some(nodes.as_slice()),
        _ => None,
    }
}

// Past so many nodes.
fn passed(so_far: Tally, nodes: u32) -> Tally
    requires room { so_far.next + nodes < 2 ^ 32 }
    requires sound { IsTally so_far }
    ensures tally { result ≡ passed so_far nodes }
    ensures sound { IsTally result }
{
    Tally {
        next: so_far.next + nodes,
        ..so_far
    }
}

// Behind a class or component, and before its members.
fn with_class(so_far: Tally) -> Tally
    requires room { so_far.next + 1 < 2 ^ 32 }
    requires sound { IsTally so_far }
    ensures tally { result ≡ with_class so_far }
    ensures sound { IsTally result }
{
    let classes = so_far.classes + 1;
    Tally {
        next: so_far.next + 1,
        classes,
        past_classes: noted(
            so_far.past_classes,
            classes <= limit_of(What::Classes),
            so_far.next,
        ),
        ..so_far
    }
}

// Behind a field with this initialiser.
fn with_field(so_far: Tally, value: Extent) -> Tally
    requires room { so_far.next + (1 + value.nodes) < 2 ^ 32 }
    requires sound { IsTally so_far }
    ensures tally { result ≡ with_field so_far value.nodes value.height }
    ensures sound { IsTally result }
{
    Tally {
        next: so_far.next + (1 + value.nodes),
        past_height: noted(
            so_far.past_height,
            value.height <= limit_of(What::Height),
            so_far.next,
        ),
        ..so_far
    }
}

// Behind a method or constructor, with what stands below it.
fn with_method(so_far: Tally, few: bool, below: Extent) -> Tally
    requires room { so_far.next + (1 + below.nodes) < 2 ^ 32 }
    requires sound { IsTally so_far }
    requires below { IsExtent below }
    ensures tally { result ≡ with_method so_far few below.nodes below.height }
    ensures sound { IsTally result }
{
    let methods = so_far.methods + 1;
    let height = below.height + 1;
    Tally {
        next: so_far.next + (1 + below.nodes),
        methods,
        past_methods: noted(
            so_far.past_methods,
            methods <= limit_of(What::Methods),
            so_far.next,
        ),
        past_locals: noted(so_far.past_locals, few, so_far.next),
        past_height: noted(
            so_far.past_height,
            height <= limit_of(What::Height),
            so_far.next,
        ),
        ..so_far
    }
}

// Whether so many parameters and so many locals are within the limit.
fn are_few(params: usize, locals: u32) -> bool
    ensures { result ≡ are_few params locals }
{
    params.saturating_add(locals as usize) <= limit_of(What::Locals) as usize
}

// The first node past a limit, with one more node behind those before it.
fn noted(past: Option<u32>, within: bool, node: u32) -> Option<u32>
    ensures { result ≡ noted past within node }
{
    match past {
        Some(first) => Some(first),
        None => { if within { None } else { Some(node) } }
    }
}
