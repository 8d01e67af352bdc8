// Types as they are written.
ghost use Rattle.std.specs.Prelude.{◌≡◌, ◌&&◌, not, nat_le, ℕ, List, IfSome};
ghost use Rattle.vg_syntax.specs.Lexemes.{is_hexadecimal};
ghost use Rattle.vg_syntax.specs.Tree as tree;
ghost use Rattle.vg_syntax.specs.Made.{arrays};
ghost use Rattle.vg_tree.specs.Held.{type_at, type_row};
ghost use Rattle.vg_core.specs.declared.types.CoreType.TheVariants.{RawType};
ghost use Rattle.vg_source.specs.Literals.{number_of};
ghost use Rattle.vg_source.specs.Types as source;
ghost use Rattle.vg_source.specs.Declared.{written_type};
ghost use Rattle.vg_rules.specs.Written.{levels, type_keeps};
ghost use Rattle.vg_types_tables.specs.Views.{declarations_at, type_view};
ghost use Rattle.vg_types_tables.specs.Declares.{Declares, IsKnown};

use crate::declared::Declared;
use crate::lookups::{class_of, number_of};
use vg_base::Names;
use vg_core::CoreType;
use vg_tree::{Node, TypeTree};
use vg_types_views::text_of;

/// Whether a type is written rightly.
#[cycle(keeping)]
pub fn type_keeps(names: &Names, root: &Node, declared: &Declared, type_: &TypeTree) -> bool
    requires declares { Declares names.now root.now declared.now }
    ensures { result ≡ type_keeps (declarations_at names.now root.now) (type_at names.now type_.now) }
{
    match type_ {
        TypeTree::Raw(width) => width_keeps(text_of(names, *width)),
        TypeTree::Class(name) => class_of(declared, text_of(names, *name)).is_some(),
        TypeTree::Array(_, element) => {
            has_levels(type_, 4) && type_keeps(names, root, declared, element)
        }
        TypeTree::Function(params, result) => {
            type_keeps(names, root, declared, params) && type_keeps(names, root, declared, result)
        }
        TypeTree::Row(all) => all_keep(names, root, declared, all.as_slice()),
        TypeTree::Int | TypeTree::Bool | TypeTree::Char | TypeTree::Nothing => true,
    }
}

// Whether all types of a row are written rightly.
#[cycle(keeping)]
fn all_keep(names: &Names, root: &Node, declared: &Declared, all: &[TypeTree]) -> bool
    requires declares { Declares names.now root.now declared.now }
    ensures { result ≡ type_keeps (declarations_at names.now root.now) (type_row names.now all.now) }
{
    for each in all {
        if !type_keeps(names, root, declared, each) {
            return false;
        }
    }
    true
}

// Whether the width of a raw type is a decimal number from 1 to 32.
fn width_keeps(width: &str) -> bool
    ensures { result ≡ (not (is_hexadecimal width.now) && nat_le 1 (number_of width.now) && nat_le (number_of width.now) 32) }
{
    let number = vg_types_numbers::number_of(width);
    !vg_types_numbers::is_hexadecimal(width) && number >= 1 && number <= 32
}

/// Whether a type has at most so many array levels.
pub fn has_levels(type_: &TypeTree, most: usize) -> bool
    ensures { (texts : List (List ℕ)) → result ≡ nat_le (levels (type_at texts type_.now)) most }
{
    match type_ {
        TypeTree::Array(levels, element) => {
            *levels <= most && has_levels(element, most - *levels)
        }
        TypeTree::Int
        | TypeTree::Bool
        | TypeTree::Char
        | TypeTree::Raw(_)
        | TypeTree::Class(_)
        | TypeTree::Function(_, _)
        | TypeTree::Nothing => true,
        TypeTree::Row(_) => true,
    }
}

/// The type that is written. None where the tables lack it or a type that it is made of.
#[cycle(writing)]
pub fn written(
    names: &Names,
    root: &Node,
    declared: &Declared,
    type_: &TypeTree,
) -> Option<CoreType>
    requires declares { Declares names.now root.now declared.now }
    ensures { IfSome result (λ t.
        (type_view names.now declared.now t ≡ written_type (type_at names.now type_.now)) × IsKnown declared.now.tables t) }
{
    match type_ {
        TypeTree::Int => Some(CoreType::IntType),
        TypeTree::Bool => Some(CoreType::BoolType),
        TypeTree::Char => Some(CoreType::CharType),
        TypeTree::Raw(width) => raw_type(text_of(names, *width)),
        TypeTree::Class(name) => class_type(names, root, declared, text_of(names, *name)),
        TypeTree::Array(levels, element) => {
            let element = written(names, root, declared, element)?;
            array_types(names, root, declared, *levels, element)
        }
        TypeTree::Function(params, result) => {
            let params = written(names, root, declared, params)?;
            let result = written(names, root, declared, result)?;
            function_type(names, root, declared, params, result)
        }
        TypeTree::Nothing => Some(CoreType::NoType),
        TypeTree::Row(all) => written_row(names, root, declared, all.as_slice()),
    }
}

// The row of the types that are written, from its end.
#[cycle(writing)]
fn written_row(
    names: &Names,
    root: &Node,
    declared: &Declared,
    all: &[TypeTree],
) -> Option<CoreType>
    requires declares { Declares names.now root.now declared.now }
    ensures { IfSome result (λ t.
        (type_view names.now declared.now t ≡ written_type (type_row names.now all.now)) × IsKnown declared.now.tables t) }
{
    let mut row = CoreType::NoType;
    let mut count = all.len();
    while count > 0 {
        count -= 1;
        let first = written(names, root, declared, &all[count])?;
        row = more_types(names, root, declared, first, row)?;
    }
    Some(row)
}

// A raw type, from the digits of its width.
fn raw_type(width: &str) -> Option<CoreType>
    ensures { IfSome result (λ t. t ≡ RawType (number_of width.now)) }
{
    let number = vg_types_numbers::number_of(width);
    if number <= 255 {
        Some(CoreType::RawType(number as u8))
    } else {
        None
    }
}

// The type of the objects of the class of this name.
fn class_type(names: &Names, root: &Node, declared: &Declared, name: &str) -> Option<CoreType>
    requires declares { Declares names.now root.now declared.now }
    ensures { IfSome result (λ t. (type_view names.now declared.now t ≡ source.ClassType name.now) × IsKnown declared.now.tables t) }
{
    match class_of(declared, name) {
        Some(class) => Some(CoreType::ClassType(class)),
        None => None,
    }
}

// The type of arrays of this type, so many times.
fn array_types(
    names: &Names,
    root: &Node,
    declared: &Declared,
    levels: usize,
    element: CoreType,
) -> Option<CoreType>
    requires declares { Declares names.now root.now declared.now }
    requires known { IsKnown declared.now.tables element }
    ensures { (t : tree.TypeTree) → type_view names.now declared.now element ≡ written_type t → IfSome result (λ u.
        (type_view names.now declared.now u ≡ written_type (arrays levels t)) × IsKnown declared.now.tables u) }
{
    let mut type_ = element;
    for _level in 0..levels {
        type_ = array_type(names, root, declared, type_)?;
    }
    Some(type_)
}

// The type of arrays of this type.
fn array_type(
    names: &Names,
    root: &Node,
    declared: &Declared,
    element: CoreType,
) -> Option<CoreType>
    requires declares { Declares names.now root.now declared.now }
    ensures { IfSome result (λ t.
        (type_view names.now declared.now t ≡ source.ArrayType (type_view names.now declared.now element)) × IsKnown declared.now.tables t) }
{
    let element = number_of(declared, element)?;
    Some(CoreType::ArrayType(element))
}

// The type of functions of these parameters and this result.
fn function_type(
    names: &Names,
    root: &Node,
    declared: &Declared,
    params: CoreType,
    value: CoreType,
) -> Option<CoreType>
    requires declares { Declares names.now root.now declared.now }
    ensures { IfSome result (λ t. (type_view names.now declared.now t
        ≡ source.FunctionType (type_view names.now declared.now params) (type_view names.now declared.now value)) × IsKnown declared.now.tables t) }
{
    let params = number_of(declared, params)?;
    let value = number_of(declared, value)?;
    Some(CoreType::FunctionType(params, value))
}

// The row of a type and the types behind it.
fn more_types(
    names: &Names,
    root: &Node,
    declared: &Declared,
    first: CoreType,
    rest: CoreType,
) -> Option<CoreType>
    requires declares { Declares names.now root.now declared.now }
    ensures { IfSome result (λ t. (type_view names.now declared.now t
        ≡ source.MoreTypes (type_view names.now declared.now first) (type_view names.now declared.now rest)) × IsKnown declared.now.tables t) }
{
    let first = number_of(declared, first)?;
    let rest = number_of(declared, rest)?;
    Some(CoreType::MoreTypes(first, rest))
}
