// Types of values.
ghost use Rattle.std.specs.Prelude.{◌≡◌, Some, slice_get};
ghost use Rattle.vg_core.specs.State as state_of;
ghost use Rattle.vg_core.specs.State.{is_object, is_array, is_delegate, is_function, takes_null};

use crate::lookup::is_below;
use vg_core::{Cell, CoreType, CoreValue, Tables};

/// Whether a value is of a type, with what lies in these cells.
pub fn is_of(tables: &Tables, cells: &[Cell], type_: CoreType, value: CoreValue) -> bool
    ensures { result ≡ state_of.is_of tables.now cells.now type_ value }
{
    match value {
        CoreValue::Int(_) => matches!(type_, CoreType::IntType),
        CoreValue::Bool(_) => matches!(type_, CoreType::BoolType),
        CoreValue::Char(_) => matches!(type_, CoreType::CharType),
        CoreValue::Raw(width, _) => match type_ {
            CoreType::RawType(k) => width == k,
            CoreType::IntType
            | CoreType::BoolType
            | CoreType::CharType
            | CoreType::NullType
            | CoreType::ClassType(_)
            | CoreType::ArrayType(_)
            | CoreType::FunctionType(_, _)
            | CoreType::NoType
            | CoreType::MoreTypes(_, _) => false,
        },
        CoreValue::Null => type_takes_null(type_),
        CoreValue::Obj(k) => match type_ {
            CoreType::ClassType(d) => is_object_at(tables, cells, d, k),
            CoreType::IntType
            | CoreType::BoolType
            | CoreType::CharType
            | CoreType::RawType(_)
            | CoreType::NullType
            | CoreType::ArrayType(_)
            | CoreType::FunctionType(_, _)
            | CoreType::NoType
            | CoreType::MoreTypes(_, _) => false,
        },
        CoreValue::Arr(k) => match type_ {
            CoreType::ArrayType(t) => is_array_at(cells, t, k),
            CoreType::IntType
            | CoreType::BoolType
            | CoreType::CharType
            | CoreType::RawType(_)
            | CoreType::NullType
            | CoreType::ClassType(_)
            | CoreType::FunctionType(_, _)
            | CoreType::NoType
            | CoreType::MoreTypes(_, _) => false,
        },
        CoreValue::Bound(_, m) => match type_ {
            CoreType::FunctionType(params, result) => is_delegate_of(tables, params, result, m),
            CoreType::IntType
            | CoreType::BoolType
            | CoreType::CharType
            | CoreType::RawType(_)
            | CoreType::NullType
            | CoreType::ClassType(_)
            | CoreType::ArrayType(_)
            | CoreType::NoType
            | CoreType::MoreTypes(_, _) => false,
        },
    }
}

// Whether null is of a type.
fn type_takes_null(type_: CoreType) -> bool
    ensures { result ≡ takes_null type_ }
{
    match type_ {
        CoreType::IntType | CoreType::BoolType | CoreType::CharType | CoreType::RawType(_) => false,
        CoreType::NullType
        | CoreType::ClassType(_)
        | CoreType::ArrayType(_)
        | CoreType::FunctionType(_, _)
        | CoreType::NoType
        | CoreType::MoreTypes(_, _) => true,
    }
}

// Whether an object of class d or below it lies in a cell.
fn is_object_at(tables: &Tables, cells: &[Cell], d: u16, k: u32) -> bool
    ensures { result ≡ is_object tables.now d (slice_get cells.now k) }
{
    match cells.get(k as usize) {
        Some(Cell::Object(c, _)) => is_below(tables, *c, d),
        Some(Cell::Array(_, _)) => false,
        None => false,
    }
}

// Whether an array of elements of the type of this number lies in a cell.
fn is_array_at(cells: &[Cell], t: u32, k: u32) -> bool
    ensures { result ≡ is_array t (slice_get cells.now k) }
{
    match cells.get(k as usize) {
        Some(Cell::Array(u, _)) => *u == t,
        Some(Cell::Object(_, _)) => false,
        None => false,
    }
}

// Whether a method is of the function type of these parameters and this result.
fn is_delegate_of(tables: &Tables, params: u32, result_type: u32, m: u16) -> bool
    ensures { result ≡ is_delegate tables.now params result_type (slice_get tables.now.methods m) }
{
    match tables.methods.as_slice().get(usize::from(m)) {
        Some(method) => is_function_at(tables, params, result_type, method.function),
        None => false,
    }
}

// Whether the type of this number is the function type of these parameters and this result.
fn is_function_at(tables: &Tables, params: u32, result_type: u32, number: u32) -> bool
    ensures { result ≡ is_function params result_type (slice_get tables.now.types number) }
{
    match tables.types.as_slice().get(number as usize) {
        Some(CoreType::FunctionType(others, other)) => *others == params && *other == result_type,
        Some(CoreType::IntType)
        | Some(CoreType::BoolType)
        | Some(CoreType::CharType)
        | Some(CoreType::RawType(_))
        | Some(CoreType::NullType)
        | Some(CoreType::ClassType(_))
        | Some(CoreType::ArrayType(_))
        | Some(CoreType::NoType)
        | Some(CoreType::MoreTypes(_, _))
        | None => false,
    }
}

/// Whether values are of types, one for one.
pub fn are_of(tables: &Tables, cells: &[Cell], types: &[CoreType], values: &[CoreValue]) -> bool
    ensures { result ≡ state_of.are_of tables.now cells.now types.now values.now }
{
    if types.len() != values.len() {
        return false;
    }
    for i in 0..types.len() {
        if !is_of(tables, cells, types[i], values[i]) {
            return false;
        }
    }
    true
}
