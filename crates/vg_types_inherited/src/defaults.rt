// Classes without a constructor.
ghost use Rattle.std.specs.Prelude.{◌≡◌, ℕ, List};
ghost use Rattle.vg_syntax.specs.Numbering.{numbered};
ghost use Rattle.vg_tree.specs.Held.{row_at};
ghost use Rattle.vg_rules.specs.Inherited.{params_of_class, has_no_type, has_constructor};
ghost use Rattle.vg_types_tables.specs.Views.{declarations_at};
ghost use Rattle.vg_types_tables.specs.Declares.{Declares};
ghost use Rattle.vg_types_inherited.specs.Asked.{is_constructor};

use vg_base::Names;
use vg_tree::Node;
use vg_types_tables::{Declared, class_of};

/// Whether the constructor of the class of this name takes no arguments.
pub(crate) fn takes_nothing(names: &Names, root: &Node, declared: &Declared, class: &str) -> bool
    requires { Declares names.now root.now declared.now }
    ensures { result ≡ has_no_type (params_of_class (declarations_at names.now root.now) class.now) }
{
    match class_of(declared, class) {
        Some(number) => match declared.tables.classes.as_slice().get(usize::from(number)) {
            Some(found) => found.params.is_empty(),
            None => true,
        },
        None => true,
    }
}

/// Whether a constructor is among members.
pub(crate) fn has_constructor(members: &[Node]) -> bool
    ensures { (texts : List (List ℕ)) (first : ℕ) → result ≡ has_constructor (numbered first (row_at texts members.now)) }
{
    'each: for member in members {
        if is_constructor(member) {
            return true;
        }
    }
    false
}

// Whether a member is a constructor.
fn is_constructor(member: &Node) -> bool
    ensures { result ≡ is_constructor member.now }
{
    match member {
        Node::ConstructorDecl(_, _, _, _, _) => true,
        _ => false,
    }
}
