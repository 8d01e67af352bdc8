// Classes above one another.
ghost use Rattle.std.specs.Prelude.{◌≡◌, ◌<◌, ◌+◌, ◌^◌, ℕ, List, [], length, is_some, IfSome};
ghost use Rattle.std.specs.Option.{option_map};
ghost use Rattle.vg_syntax.specs.Numbering.{count_nodes};
ghost use Rattle.vg_tree.specs.Held.{text_at, node_at, row_at};
ghost use Rattle.vg_source.specs.Names.{is_among};
ghost use Rattle.vg_source.specs.Declared.{chain_from, above_of};
ghost use Rattle.vg_syntax.specs.Classes.{class_named};
ghost use Rattle.vg_syntax.specs.Tree.{Node as Tree};
ghost use Rattle.vg_rules.specs.Names.{extends_keeps, classes_breach};
ghost use Rattle.vg_types_views.specs.Judges.{Judges};
ghost use Rattle.vg_types_classes.specs.Classes.{declarations_in, IsMapAt};
ghost use Rattle.vg_types_classes.specs.Walk.{class_keeps, is_class};

use crate::class::class_of;
use crate::fault::broken;
use vg_base::{Name, Names, Refusal};
use vg_tree::Node;
use vg_types_counts::count_nodes;
use vg_types_names::Declaration;
use vg_types_views::{Broken, ByText, text_of};

// The heading of a class: its name, and the name of the class that it extends.
#[derive(Clone, Copy, Debug, PartialEq, Eq)]
struct Heading {
    class: Name,
    above: Option<Name>,
}

/// The first breach of the rule on classes above one another. It takes no memory.
///
/// There are at most 200 classes, so each is asked by a walk over those above it, with a look-up for each.
pub fn classes(
    names: &Names,
    nodes: &[Node],
    declarations: &ByText<Declaration>,
) -> Result<(), Refusal<Broken>>
    requires room { 1 + count_nodes (row_at [] nodes.now) < 2 ^ 32 }
    requires map { IsMapAt names.now nodes.now declarations.now }
    ensures { Judges (λ u. Unit {0}) result (classes_breach (declarations_in names.now nodes.now) (declarations_in names.now nodes.now)) }
{
    let mut next = 1;
    'each: for node in nodes {
        if !class_keeps(names, nodes, declarations, node) {
            return Err(broken(5, next));
        }
        next = next + count_nodes(node);
    }
    Ok(())
}

// Whether a declaration keeps the rule; what is no class does.
fn class_keeps(
    names: &Names,
    nodes: &[Node],
    declarations: &ByText<Declaration>,
    declaration: &Node,
) -> bool
    requires { IsMapAt names.now nodes.now declarations.now }
    ensures { result ≡ class_keeps (declarations_in names.now nodes.now) (node_at names.now declaration.now) }
{
    match heading_of(declaration) {
        Some(heading) => extends_keeps(names, nodes, declarations, heading.class, heading.above),
        None => true,
    }
}

// The heading of a declaration that declares a class.
fn heading_of(declaration: &Node) -> Option<Heading>
    ensures some { is_some result ≡ is_class declaration.now }
    ensures heading { IfSome result (λ h. (ds : Tree) (texts : List (List ℕ)) → class_keeps ds (node_at texts declaration.now)
        ≡ extends_keeps ds (text_at texts h.class) (option_map (text_at texts) h.above)) }
{
    match declaration {
        Node::ClassDecl(_, class, above, _) => Some(Heading {
            class: *class,
            above: *above,
        }),
        _ => None,
    }
}

// Whether what stands behind `extends` is a class that does not have this one above it.
fn extends_keeps(
    names: &Names,
    nodes: &[Node],
    declarations: &ByText<Declaration>,
    class: Name,
    above: Option<Name>,
) -> bool
    requires { IsMapAt names.now nodes.now declarations.now }
    ensures { result ≡ extends_keeps (declarations_in names.now nodes.now) (text_at names.now class) (option_map (text_at names.now) above) }
{
    match above {
        None => true,
        Some(above) => {
            class_of(nodes, declarations, text_of(names, above)).is_some()
                && !is_above(names, nodes, declarations, text_of(names, class), above)
        }
    }
}

// Whether a class is this one or above it, among as many as there are declarations.
fn is_above(
    names: &Names,
    nodes: &[Node],
    declarations: &ByText<Declaration>,
    class: &str,
    lowest: Name,
) -> bool
    requires { IsMapAt names.now nodes.now declarations.now }
    ensures { result ≡ is_among (chain_from (length nodes.now) (declarations_in names.now nodes.now) (Some (text_at names.now lowest))) class.now }
{
    let mut next = Some(lowest);
    'chain: for _turn in 0..nodes.len() {
        let name = match next {
            Some(name) => text_of(names, name),
            None => return false,
        };
        if name == class {
            return true;
        }
        next = above_of(nodes, declarations, name);
    }
    false
}

// The class above the class of this name, where there is one.
fn above_of(nodes: &[Node], declarations: &ByText<Declaration>, text: &str) -> Option<Name>
    ensures { (texts : List (List ℕ)) → IsMapAt texts nodes.now declarations.now
        → option_map (text_at texts) result ≡ above_of (class_named (declarations_in texts nodes.now) text.now) }
{
    match class_of(nodes, declarations, text) {
        Some(class) => class.above,
        None => None,
    }
}
