// Classes by name.
ghost use Rattle.std.specs.Prelude.{◌≡◌, ℕ, List};
ghost use Rattle.std.specs.Option.{option_map};
ghost use Rattle.vg_syntax.specs.Classes.{class_named};
ghost use Rattle.vg_types_classes.specs.Classes.{declarations_in, class_view, IsMapAt};
ghost use Rattle.vg_types_classes.specs.Walk.{class_at};

use vg_base::Name;
use vg_tree::Node;
use vg_types_names::Declaration;
use vg_types_views::ByText;

/// A class that was found.
#[derive(Clone, Copy, Debug, PartialEq, Eq)]
pub struct FoundClass {
    /// The class that it extends, where it extends one.
    pub above: Option<Name>,
}

/// The class of this name among the declarations of a text, found in about constant time.
pub fn class_of(
    nodes: &[Node],
    declarations: &ByText<Declaration>,
    text: &str,
) -> Option<FoundClass>
    ensures { (texts : List (List ℕ)) → IsMapAt texts nodes.now declarations.now
        → option_map (class_view texts) result ≡ option_map (λ k. k.above) (class_named (declarations_in texts nodes.now) text.now) }
{
    match declarations.get(text) {
        Some(declaration) => class_at(nodes.get(declaration.place as usize)),
        None => None,
    }
}

// The class that a declaration declares.
fn class_at(declaration: Option<&Node>) -> Option<FoundClass>
    ensures { (texts : List (List ℕ)) → option_map (class_view texts) result ≡ class_at texts (option_map (λ d. d.now) declaration.entry) }
{
    match declaration {
        Some(Node::ClassDecl(_, _, above, _)) => Some(FoundClass { above: *above }),
        _ => None,
    }
}
