// Types as they are written.
ghost use Rattle.std.specs.Prelude.{◌≡◌, ◌-◌, ◌^◌, ℕ, List, min};
ghost use Rattle.vg_tree.specs.Held.{type_at};
ghost use Rattle.vg_rules.specs.Written.{levels, type_keeps};
ghost use Rattle.vg_types_classes.specs.Classes.{declarations_in, IsMapAt};
ghost use Rattle.vg_types_signatures.specs.Asked.{width_keeps, levels_keep};

use vg_base::Names;
use vg_tree::{Node, TypeTree};
use vg_types_classes::class_of;
use vg_types_names::Declaration;
use vg_types_numbers::{is_hexadecimal, number_of};
use vg_types_views::{ByText, text_of};

/// Whether a type is written rightly.
pub(crate) fn type_keeps(
    names: &Names,
    nodes: &[Node],
    declarations: &ByText<Declaration>,
    type_: &TypeTree,
) -> bool
    requires { IsMapAt names.now nodes.now declarations.now }
    ensures { result ≡ type_keeps (declarations_in names.now nodes.now) (type_at names.now type_.now) }
{
    match type_ {
        TypeTree::Int | TypeTree::Bool | TypeTree::Char | TypeTree::Nothing => true,
        TypeTree::Raw(width) => width_keeps(text_of(names, *width)),
        TypeTree::Class(name) => class_of(nodes, declarations, text_of(names, *name)).is_some(),
        TypeTree::Array(count, element) => {
            levels_keep(*count, element) && type_keeps(names, nodes, declarations, element)
        }
        TypeTree::Function(params, result) => {
            type_keeps(names, nodes, declarations, params)
                && type_keeps(names, nodes, declarations, result)
        }
        TypeTree::Row(types) => {
            'row: for type_ in types.as_slice() {
                if !type_keeps(names, nodes, declarations, type_) {
                    return false;
                }
            }
            true
        }
    }
}

// Whether the width of a raw type is a decimal number from 1 to 32.
fn width_keeps(width: &str) -> bool
    ensures { result ≡ width_keeps width.now }
{
    let bits = number_of(width);
    !is_hexadecimal(width) && bits >= 1 && bits <= 32
}

// Whether so many levels over an element are at most four in all; where there are none the element is asked alone.
fn levels_keep(count: usize, element: &TypeTree) -> bool
    ensures { (texts : List (List ℕ)) → result ≡ levels_keep count (type_at texts element.now) }
{
    count == 0 || count.saturating_add(levels(element)) <= 4
}

// The levels of an array type.
fn levels(type_: &TypeTree) -> usize
    ensures { (texts : List (List ℕ)) → result ≡ min (levels (type_at texts type_.now)) (2 ^ 64 - 1) }
{
    match type_ {
        TypeTree::Array(count, element) => count.saturating_add(levels(element)),
        TypeTree::Int
        | TypeTree::Bool
        | TypeTree::Char
        | TypeTree::Raw(_)
        | TypeTree::Class(_)
        | TypeTree::Function(_, _)
        | TypeTree::Nothing => 0,
        TypeTree::Row(_) => 0,
    }
}
