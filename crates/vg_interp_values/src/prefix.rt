// Operators of one operand.
ghost use Rattle.std.specs.Prelude.{◌-◌, ◌^◌};
ghost use Rattle.vg_source.specs.Operators.{Is, Bits, Negative, Not};
ghost use Rattle.vg_core.specs.Operators.{scalar_of, prefix_of};
ghost use Rattle.vg_interp_values.specs.Made.{Makes, of_scalar};

use crate::failure::Failure;
use vg_core::{CoreValue, Prefix};

/// What an operator makes of one value.
pub fn apply(op: Prefix, x: CoreValue) -> Result<CoreValue, Failure>
    ensures { Makes result (of_scalar (prefix_of op) (scalar_of x)) }
{
    match op {
        Prefix::Negative => negated(x),
        Prefix::Not => inverted(x),
        Prefix::Complement => match x {
            CoreValue::Raw(width, bits) => complemented(width, bits),
            CoreValue::Int(_)
            | CoreValue::Bool(_)
            | CoreValue::Char(_)
            | CoreValue::Null
            | CoreValue::Obj(_)
            | CoreValue::Arr(_)
            | CoreValue::Bound(_, _) => Err(Failure::Unfit),
        },
    }
}

// The negative of an int.
fn negated(x: CoreValue) -> Result<CoreValue, Failure>
    ensures { Makes result (of_scalar Negative (scalar_of x)) }
{
    match x {
        CoreValue::Int(n) => Ok(CoreValue::Int(n.wrapping_neg())),
        CoreValue::Bool(_)
        | CoreValue::Char(_)
        | CoreValue::Raw(_, _)
        | CoreValue::Null
        | CoreValue::Obj(_)
        | CoreValue::Arr(_)
        | CoreValue::Bound(_, _) => Err(Failure::Unfit),
    }
}

// The other truth value.
fn inverted(x: CoreValue) -> Result<CoreValue, Failure>
    ensures { Makes result (of_scalar Not (scalar_of x)) }
{
    match x {
        CoreValue::Bool(b) => Ok(CoreValue::Bool(!b)),
        CoreValue::Int(_)
        | CoreValue::Char(_)
        | CoreValue::Raw(_, _)
        | CoreValue::Null
        | CoreValue::Obj(_)
        | CoreValue::Arr(_)
        | CoreValue::Bound(_, _) => Err(Failure::Unfit),
    }
}

// Each bit turned.
fn complemented(width: u8, bits: u32) -> Result<CoreValue, Failure>
    ensures { Makes result (Is (Bits width (2 ^ width - 1 - bits))) }
{
    if width > 32 {
        // No text has such a width.
        return Err(Failure::NoMemory);
    }
    let ones = (1u64 << width) - 1;
    Ok(CoreValue::Raw(width, ones.saturating_sub(u64::from(bits)) as u32))
}
