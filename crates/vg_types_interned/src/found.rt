// The types that are written, where the table has what they are made of.
ghost use Rattle.std.specs.Prelude.{◌≡◌, true, length, IfSome};
ghost use Rattle.vg_tree.specs.Held.{type_at, type_row};
ghost use Rattle.vg_source.specs.Declared.{written_type};
ghost use Rattle.vg_source.specs.Types as source_type;
ghost use Rattle.vg_types_interned.specs.Types.{is_made_of, type_view};
ghost use Rattle.vg_types_interned.specs.Rows.{array_over};

use crate::table::Types;
use vg_base::Names;
use vg_core::CoreType;
use vg_tree::{Param, TypeTree};
use vg_types_numbers::number_of;
use vg_types_views::text_of;

/// The type that is written, where the table has all that it is made of.
#[cycle(found)]
pub fn written(types: &Types, names: &Names, tree: &TypeTree) -> Option<CoreType>
    ensures view { IfSome result (λ t. type_view types.now.classes types.now.numbers.keys t ≡ written_type (type_at names.now tree.now)) }
    ensures made { IfSome result (λ t. is_made_of (length types.now.classes) (length types.now.numbers.keys) t ≡ true) }
{
    match tree {
        TypeTree::Int => Some(CoreType::IntType),
        TypeTree::Bool => Some(CoreType::BoolType),
        TypeTree::Char => Some(CoreType::CharType),
        TypeTree::Raw(width) => match u8::try_from(number_of(text_of(names, *width))) {
            Ok(width) => Some(CoreType::RawType(width)),
            Err(_) => None,
        },
        TypeTree::Class(name) => class_written(types, text_of(names, *name)),
        TypeTree::Array(levels, element) => {
            let element = written(types, names, element)?;
            array_over(types, *levels, element)
        }
        TypeTree::Function(params, value) => {
            let params = written(types, names, params)?;
            let value = written(types, names, value)?;
            function_of(types, params, value)
        }
        TypeTree::Nothing => Some(CoreType::NoType),
        TypeTree::Row(row) => written_row(types, names, row.as_slice()),
    }
}

// The type of a class.
fn class_written(types: &Types, text: &str) -> Option<CoreType>
    ensures view { IfSome result (λ t. type_view types.now.classes types.now.numbers.keys t ≡ source_type.ClassType text.now) }
    ensures made { IfSome result (λ t. is_made_of (length types.now.classes) (length types.now.numbers.keys) t ≡ true) }
{
    match types.classes.get(text).copied() {
        Some(class) => Some(CoreType::ClassType(class)),
        None => None,
    }
}

// The array type of so many levels over a type.
fn array_over(types: &Types, levels: usize, element: CoreType) -> Option<CoreType>
    requires { is_made_of (length types.now.classes) (length types.now.numbers.keys) element ≡ true }
    ensures view { IfSome result (λ t. type_view types.now.classes types.now.numbers.keys t
        ≡ array_over levels (type_view types.now.classes types.now.numbers.keys element)) }
    ensures made { IfSome result (λ t. is_made_of (length types.now.classes) (length types.now.numbers.keys) t ≡ true) }
{
    let mut whole = element;
    'levels: for _level in 0..levels {
        whole = CoreType::ArrayType(types.number(whole)?);
    }
    Some(whole)
}

/// The function type of these parameters' row and this result.
pub fn function_of(types: &Types, params: CoreType, value: CoreType) -> Option<CoreType>
    ensures view { IfSome result (λ t. type_view types.now.classes types.now.numbers.keys t
        ≡ source_type.FunctionType (type_view types.now.classes types.now.numbers.keys params) (type_view types.now.classes types.now.numbers.keys value)) }
    ensures made { IfSome result (λ t. is_made_of (length types.now.classes) (length types.now.numbers.keys) t ≡ true) }
{
    Some(CoreType::FunctionType(types.number(params)?, types.number(value)?))
}

// A type before a row.
fn type_before(types: &Types, first: CoreType, rest: CoreType) -> Option<CoreType>
    ensures view { IfSome result (λ t. type_view types.now.classes types.now.numbers.keys t
        ≡ source_type.MoreTypes (type_view types.now.classes types.now.numbers.keys first) (type_view types.now.classes types.now.numbers.keys rest)) }
    ensures made { IfSome result (λ t. is_made_of (length types.now.classes) (length types.now.numbers.keys) t ≡ true) }
{
    Some(CoreType::MoreTypes(types.number(first)?, types.number(rest)?))
}

// The row of written types.
#[cycle(found)]
fn written_row(types: &Types, names: &Names, row: &[TypeTree]) -> Option<CoreType>
    ensures view { IfSome result (λ t. type_view types.now.classes types.now.numbers.keys t ≡ written_type (type_row names.now row.now)) }
    ensures made { IfSome result (λ t. is_made_of (length types.now.classes) (length types.now.numbers.keys) t ≡ true) }
{
    let mut rest = CoreType::NoType;
    'row: for index in (0..row.len()).rev() {
        rest = type_before(types, written(types, names, &row[index])?, rest)?;
    }
    Some(rest)
}
