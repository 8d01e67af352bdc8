// Bit strings.
ghost use Rattle.std.specs.Prelude.{◌≡◌, ◌+◌, ◌*◌, ◌/◌, ◌^◌, ◌==◌, nat_le};
ghost use Rattle.vg_source.specs.Operators.{Bits, ShiftLeft, ShiftRight, on_raws, only_if, shifted};
ghost use Rattle.vg_core.specs.Operators.{operator_of};
ghost use Rattle.vg_interp_values.specs.Made.{Makes, value_if};

use crate::failure::Failure;
use vg_core::{CoreValue, Operator};

/// An operator on bit strings of j and of k bits.
pub fn operate_raws(op: Operator, j: u8, x: u32, k: u8, y: u32) -> Result<CoreValue, Failure>
    ensures { Makes result (on_raws (operator_of op) j x k y) }
{
    match op {
        Operator::And => of_one_width(j, k, CoreValue::Raw(j, x & y)),
        Operator::Or => of_one_width(j, k, CoreValue::Raw(j, x | y)),
        Operator::Xor => of_one_width(j, k, CoreValue::Raw(j, x ^ y)),
        Operator::Concat => concatenated(j, x, k, y),
        Operator::Equal => of_one_width(j, k, CoreValue::Bool(x == y)),
        Operator::Unequal => of_one_width(j, k, CoreValue::Bool(x != y)),
        Operator::Plus
        | Operator::Minus
        | Operator::Times
        | Operator::Divide
        | Operator::Remainder
        | Operator::Less
        | Operator::AtMost
        | Operator::Greater
        | Operator::AtLeast
        | Operator::ShiftLeft
        | Operator::ShiftRight => Err(Failure::Unfit),
    }
}

// A value that is made of two bit strings of one width.
fn of_one_width(j: u8, k: u8, value: CoreValue) -> Result<CoreValue, Failure>
    ensures { result ≡ value_if (j == k) value }
{
    if j == k {
        Ok(value)
    } else {
        Err(Failure::Unfit)
    }
}

// The left bits above the right ones.
fn concatenated(j: u8, x: u32, k: u8, y: u32) -> Result<CoreValue, Failure>
    ensures { Makes result (only_if (nat_le (j + k) 32) (Bits (j + k) (x * 2 ^ k + y))) }
{
    let width = u16::from(j) + u16::from(k);
    if width > 32 {
        return Err(Failure::Unfit);
    }
    match u32::try_from((u64::from(x) << k) + u64::from(y)) {
        Ok(bits) => Ok(CoreValue::Raw(j + k, bits)),
        // Left bits that do not fit their width: no text has them.
        Err(_) => Err(Failure::NoMemory),
    }
}

/// So many bits shifted by an int: an amount below 0 or from the width up gives 0.
pub fn shift(op: Operator, width: u8, bits: u32, amount: i32) -> Result<CoreValue, Failure>
    ensures { Makes result (shifted (operator_of op) width bits amount) }
{
    match op {
        Operator::ShiftLeft => shift_left(width, bits, amount),
        Operator::ShiftRight => shift_right(width, bits, amount),
        Operator::Plus
        | Operator::Minus
        | Operator::Times
        | Operator::Divide
        | Operator::Remainder
        | Operator::Less
        | Operator::AtMost
        | Operator::Greater
        | Operator::AtLeast
        | Operator::Equal
        | Operator::Unequal
        | Operator::And
        | Operator::Or
        | Operator::Xor
        | Operator::Concat => Err(Failure::Unfit),
    }
}

// Bits shifted up; those above the width are lost.
fn shift_left(width: u8, bits: u32, amount: i32) -> Result<CoreValue, Failure>
    ensures { Makes result (shifted ShiftLeft width bits amount) }
{
    if amount < 0 || amount >= i32::from(width) {
        return Ok(CoreValue::Raw(width, 0));
    }
    if width > 32 {
        // No text has such a width.
        return Err(Failure::NoMemory);
    }
    let all = u64::from(bits) << amount.unsigned_abs();
    Ok(CoreValue::Raw(width, (all % (1u64 << width)) as u32))
}

// Bits shifted down.
fn shift_right(width: u8, bits: u32, amount: i32) -> Result<CoreValue, Failure>
    ensures { Makes result (shifted ShiftRight width bits amount) }
{
    if amount < 0 || amount >= i32::from(width) {
        return Ok(CoreValue::Raw(width, 0));
    }
    Ok(CoreValue::Raw(width, high_bits(bits, amount.unsigned_abs())))
}

// The bits from this place up.
fn high_bits(bits: u32, place: u32) -> u32
    ensures { result ≡ bits / 2 ^ place }
{
    if place >= 32 {
        return 0;
    }
    bits >> place
}
