// The numbers of written types.
ghost use Rattle.std.specs.Prelude.{◌≡◌, ◌<◌, ◌≤◌, length, IfOk, IfSome, OnOk};

use crate::table::Types;
use vg_base::{Names, NoMemory};
use vg_core::CoreType;
use vg_tree::{Param, TypeTree};
use vg_types_numbers::number_of;
use vg_types_views::text_of;

/// The levels that an array type may have.
const MOST_LEVELS: usize = 4;

/// The number of a written type, which gets one with all that it is made of; none where it is not written as the rules ask.
#[cycle(making)]
pub(crate) fn intern_type(
    types: &mut Types,
    names: &Names,
    tree: &TypeTree,
) -> Result<Option<u32>, NoMemory>
    ensures within { IfOk result (λ o. IfSome o (λ n. n < length types.new.numbers.keys)) }
    ensures longer { OnOk result (length types.old.numbers.keys ≤ length types.new.numbers.keys) }
    ensures classes { OnOk result (types.new.classes ≡ types.old.classes) }
{
    match tree {
        TypeTree::Int => Ok(Some(types.intern(CoreType::IntType)?)),
        TypeTree::Bool => Ok(Some(types.intern(CoreType::BoolType)?)),
        TypeTree::Char => Ok(Some(types.intern(CoreType::CharType)?)),
        TypeTree::Raw(width) => match u8::try_from(number_of(text_of(names, *width))) {
            Ok(width) => Ok(Some(types.intern(CoreType::RawType(width))?)),
            Err(_) => Ok(None),
        },
        TypeTree::Class(name) => intern_class(types, text_of(names, *name)),
        TypeTree::Array(levels, element) => {
            let number = intern_type(types, names, element)?;
            intern_levels(types, *levels, number)
        }
        TypeTree::Function(params, result) => {
            let params = intern_type(types, names, params)?;
            let result = intern_type(types, names, result)?;
            intern_function(types, params, result)
        }
        TypeTree::Nothing => Ok(Some(types.intern(CoreType::NoType)?)),
        TypeTree::Row(row) => intern_row(types, names, row.as_slice()),
    }
}

// The number of the type of a class, where it is one.
fn intern_class(types: &mut Types, text: &str) -> Result<Option<u32>, NoMemory>
    ensures within { IfOk result (λ o. IfSome o (λ n. n < length types.new.numbers.keys)) }
    ensures longer { OnOk result (length types.old.numbers.keys ≤ length types.new.numbers.keys) }
    ensures classes { OnOk result (types.new.classes ≡ types.old.classes) }
{
    match types.classes.get(text).copied() {
        Some(class) => Ok(Some(types.intern(CoreType::ClassType(class))?)),
        None => Ok(None),
    }
}

// The number of an array type of so many levels over a type.
fn intern_levels(
    types: &mut Types,
    levels: usize,
    element: Option<u32>,
) -> Result<Option<u32>, NoMemory>
    requires { IfSome element (λ n. n < length types.old.numbers.keys) }
    ensures within { IfOk result (λ o. IfSome o (λ n. n < length types.new.numbers.keys)) }
    ensures longer { OnOk result (length types.old.numbers.keys ≤ length types.new.numbers.keys) }
    ensures classes { OnOk result (types.new.classes ≡ types.old.classes) }
{
    match element {
        Some(element) if levels <= MOST_LEVELS => {
            let mut number = element;
            'levels: for _ in 0..levels {
                number = types.intern(CoreType::ArrayType(number))?;
            }
            Ok(Some(number))
        }
        _ => Ok(None),
    }
}

/// The number of a function type.
pub(crate) fn intern_function(
    types: &mut Types,
    params: Option<u32>,
    value: Option<u32>,
) -> Result<Option<u32>, NoMemory>
    requires params { IfSome params (λ n. n < length types.old.numbers.keys) }
    requires value { IfSome value (λ n. n < length types.old.numbers.keys) }
    ensures within { IfOk result (λ o. IfSome o (λ n. n < length types.new.numbers.keys)) }
    ensures longer { OnOk result (length types.old.numbers.keys ≤ length types.new.numbers.keys) }
    ensures classes { OnOk result (types.new.classes ≡ types.old.classes) }
{
    match (params, value) {
        (Some(params), Some(value)) => Ok(Some(types.intern(CoreType::FunctionType(
            params, value,
        ))?)),
        _ => Ok(None),
    }
}

// The number of a row of types.
#[cycle(making)]
fn intern_row(types: &mut Types, names: &Names, row: &[TypeTree]) -> Result<Option<u32>, NoMemory>
    ensures within { IfOk result (λ o. IfSome o (λ n. n < length types.new.numbers.keys)) }
    ensures longer { OnOk result (length types.old.numbers.keys ≤ length types.new.numbers.keys) }
    ensures classes { OnOk result (types.new.classes ≡ types.old.classes) }
{
    let mut rest = types.intern(CoreType::NoType)?;
    'row: for tree in row.iter().rev() {
        match intern_type(types, names, tree)? {
            Some(first) => rest = types.intern(CoreType::MoreTypes(first, rest))?,
            None => return Ok(None),
        }
    }
    Ok(Some(rest))
}

/// The number of the row of the types of parameters.
pub(crate) fn intern_params(
    types: &mut Types,
    names: &Names,
    params: &[Param],
) -> Result<Option<u32>, NoMemory>
    ensures within { IfOk result (λ o. IfSome o (λ n. n < length types.new.numbers.keys)) }
    ensures longer { OnOk result (length types.old.numbers.keys ≤ length types.new.numbers.keys) }
    ensures classes { OnOk result (types.new.classes ≡ types.old.classes) }
{
    let mut rest = types.intern(CoreType::NoType)?;
    'params: for param in params.iter().rev() {
        match intern_type(types, names, &param.type_)? {
            Some(first) => rest = types.intern(CoreType::MoreTypes(first, rest))?,
            None => return Ok(None),
        }
    }
    Ok(Some(rest))
}
