// Casts.
ghost use Rattle.std.specs.Prelude.{◌≡◌, ◌%◌, ◌^◌};
ghost use Rattle.vg_source.specs.Operators.{ToInt, ToChar, ToBits};
ghost use Rattle.vg_core.specs.Meaning as meaning;
ghost use Rattle.vg_core.specs.Operators.{scalar_of};
ghost use Rattle.vg_interp_values.specs.Made.{Makes, recast_of, number_in};

use crate::failure::Failure;
use vg_core::{CoreType, CoreValue};

/// A number as an int of 32 bits.
pub fn to_int(x: CoreValue) -> Result<CoreValue, Failure>
    ensures { Makes result (recast_of ToInt (scalar_of x)) }
{
    match number_of(x) {
        Some(n) => Ok(CoreValue::Int(n.cast_signed())),
        None => Err(Failure::Unfit),
    }
}

/// A number as a char.
pub fn to_char(x: CoreValue) -> Result<CoreValue, Failure>
    ensures { Makes result (recast_of ToChar (scalar_of x)) }
{
    match number_of(x) {
        Some(n) => Ok(CoreValue::Char((n % 256) as u8)),
        None => Err(Failure::Unfit),
    }
}

/// A number as so many bits.
pub fn to_bits(width: u8, x: CoreValue) -> Result<CoreValue, Failure>
    ensures { Makes result (recast_of (ToBits width) (scalar_of x)) }
{
    match number_of(x) {
        Some(n) => Ok(CoreValue::Raw(width, low_bits(width, n))),
        None => Err(Failure::Unfit),
    }
}

// The bits of a number.
fn number_of(x: CoreValue) -> Option<u32>
    ensures { result ≡ number_in (scalar_of x) }
{
    match x {
        CoreValue::Int(n) => Some(n.cast_unsigned()),
        CoreValue::Char(c) => Some(u32::from(c)),
        CoreValue::Raw(_, bits) => Some(bits),
        CoreValue::Bool(_)
        | CoreValue::Null
        | CoreValue::Obj(_)
        | CoreValue::Arr(_)
        | CoreValue::Bound(_, _) => None,
    }
}

// So many of the low bits.
fn low_bits(width: u8, bits: u32) -> u32
    ensures { result ≡ bits % 2 ^ width }
{
    if width >= 32 {
        return bits;
    }
    bits % (1u32 << width)
}

/// The value of a type that is cast to this very type: a truth value, an array or a delegate.
pub fn as_it_is(type_: CoreType, x: CoreValue) -> Option<CoreValue>
    ensures { result ≡ meaning.as_it_is type_ x }
{
    match type_ {
        CoreType::BoolType => match x {
            CoreValue::Bool(b) => Some(CoreValue::Bool(b)),
            CoreValue::Int(_)
            | CoreValue::Char(_)
            | CoreValue::Raw(_, _)
            | CoreValue::Null
            | CoreValue::Obj(_)
            | CoreValue::Arr(_)
            | CoreValue::Bound(_, _) => None,
        },
        CoreType::ArrayType(_) => match x {
            CoreValue::Arr(k) => Some(CoreValue::Arr(k)),
            CoreValue::Null => Some(CoreValue::Null),
            CoreValue::Int(_)
            | CoreValue::Bool(_)
            | CoreValue::Char(_)
            | CoreValue::Raw(_, _)
            | CoreValue::Obj(_)
            | CoreValue::Bound(_, _) => None,
        },
        CoreType::FunctionType(_, _) => match x {
            CoreValue::Bound(receiver, m) => Some(CoreValue::Bound(receiver, m)),
            CoreValue::Null => Some(CoreValue::Null),
            CoreValue::Int(_)
            | CoreValue::Bool(_)
            | CoreValue::Char(_)
            | CoreValue::Raw(_, _)
            | CoreValue::Obj(_)
            | CoreValue::Arr(_) => None,
        },
        CoreType::IntType
        | CoreType::CharType
        | CoreType::RawType(_)
        | CoreType::NullType
        | CoreType::ClassType(_)
        | CoreType::NoType
        | CoreType::MoreTypes(_, _) => None,
    }
}
