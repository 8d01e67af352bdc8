// Which declarations have members alone.
ghost use Rattle.std.specs.Prelude.{◌≡◌, true, ℕ, List, IsTrue};
ghost use Rattle.vg_tree.specs.Held.{node_at, row_at};
ghost use Rattle.vg_types_declared.specs.Apart.{is_member, are_members, has_members, have_members};

use vg_tree::Node;

/// Whether members alone stand in the classes and components of these declarations, as in those of each text.
pub(crate) fn have_members(declarations: &[Node]) -> bool
    ensures { IsTrue result → (texts : List (List ℕ)) → have_members (row_at texts declarations.now) ≡ true }
{
    'declarations: for declaration in declarations {
        if !has_members(declaration) {
            return false;
        }
    }
    true
}

// Whether members alone stand in a declaration, where it is a class or a component.
fn has_members(declaration: &Node) -> bool
    ensures { IsTrue result → (texts : List (List ℕ)) → has_members (node_at texts declaration.now) ≡ true }
{
    match declaration {
        Node::ClassDecl(_, _, _, members) => are_members(members),
        Node::ComponentDecl(_, _, members) => are_members(members),
        Node::DeviceDecl(_, _, _) => true,
        Node::ProgramDecl(_, _, _) => true,
        _ => false,
    }
}

// Whether a row is one of members.
fn are_members(members: &Node) -> bool
    ensures { IsTrue result → (texts : List (List ℕ)) → are_members (node_at texts members.now) ≡ true }
{
    match members {
        Node::Row(nodes) => all_members(nodes.as_slice()),
        _ => false,
    }
}

// Whether all of these are members.
fn all_members(nodes: &[Node]) -> bool
    ensures { IsTrue result → (texts : List (List ℕ)) → are_members (row_at texts nodes.now) ≡ true }
{
    'nodes: for node in nodes {
        if !is_member(node) {
            return false;
        }
    }
    true
}

// Whether a node is a member.
fn is_member(node: &Node) -> bool
    ensures { IsTrue result → (texts : List (List ℕ)) → is_member (node_at texts node.now) ≡ true }
{
    match node {
        Node::FieldDecl(_, _, _, _) => true,
        Node::MethodDecl(_, _, _, _, _) => true,
        Node::ConstructorDecl(_, _, _, _, _) => true,
        _ => false,
    }
}
