// Operators of two operands.
ghost use Rattle.std.specs.Prelude.{int_rem};
ghost use Rattle.std.specs.Int.{w32, int_wrapping_div};
ghost use Rattle.vg_source.specs.Operators.{AnInt, on_ints, on_chars, compared, unless_zero};
ghost use Rattle.vg_core.specs.Operators.{operator_of, operand_of};
ghost use Rattle.vg_interp_values.specs.Made.{Makes, of_operands};

use crate::bits::{operate_raws, shift};
use crate::failure::Failure;
use vg_core::{CoreValue, Operator};

/// What an operator makes of two values; a delegate is no operand.
pub fn operate(op: Operator, x: CoreValue, y: CoreValue) -> Result<CoreValue, Failure>
    ensures { Makes result (of_operands op (operand_of x) (operand_of y)) }
{
    match x {
        CoreValue::Int(m) => match y {
            CoreValue::Int(n) => operate_ints(op, m, n),
            _ => Err(Failure::Unfit),
        },
        CoreValue::Bool(a) => match y {
            CoreValue::Bool(b) => compare(op, a == b),
            _ => Err(Failure::Unfit),
        },
        CoreValue::Char(c) => match y {
            CoreValue::Char(d) => operate_chars(op, c, d),
            _ => Err(Failure::Unfit),
        },
        CoreValue::Raw(j, bits) => match y {
            CoreValue::Raw(k, others) => operate_raws(op, j, bits, k, others),
            CoreValue::Int(n) => shift(op, j, bits, n),
            _ => Err(Failure::Unfit),
        },
        CoreValue::Null => match y {
            CoreValue::Null => compare(op, true),
            CoreValue::Obj(_) | CoreValue::Arr(_) => compare(op, false),
            _ => Err(Failure::Unfit),
        },
        CoreValue::Obj(k) => match y {
            CoreValue::Obj(l) => compare(op, k == l),
            CoreValue::Null => compare(op, false),
            _ => Err(Failure::Unfit),
        },
        CoreValue::Arr(k) => match y {
            CoreValue::Arr(l) => compare(op, k == l),
            CoreValue::Null => compare(op, false),
            _ => Err(Failure::Unfit),
        },
        CoreValue::Bound(_, _) => Err(Failure::Unfit),
    }
}

// An operator on ints: of 32 bits, and sums, differences and products wrap.
fn operate_ints(op: Operator, x: i32, y: i32) -> Result<CoreValue, Failure>
    ensures { Makes result (on_ints (operator_of op) x y) }
{
    match op {
        Operator::Plus => Ok(CoreValue::Int(x.wrapping_add(y))),
        Operator::Minus => Ok(CoreValue::Int(x.wrapping_sub(y))),
        Operator::Times => Ok(CoreValue::Int(x.wrapping_mul(y))),
        Operator::Divide => quotient(x, y),
        Operator::Remainder => remainder(x, y),
        Operator::Less => Ok(CoreValue::Bool(x < y)),
        Operator::AtMost => Ok(CoreValue::Bool(x <= y)),
        Operator::Greater => Ok(CoreValue::Bool(x > y)),
        Operator::AtLeast => Ok(CoreValue::Bool(x >= y)),
        Operator::Equal => Ok(CoreValue::Bool(x == y)),
        Operator::Unequal => Ok(CoreValue::Bool(x != y)),
        Operator::And
        | Operator::Or
        | Operator::Xor
        | Operator::ShiftLeft
        | Operator::ShiftRight
        | Operator::Concat => Err(Failure::Unfit),
    }
}

// Division is toward zero.
fn quotient(x: i32, y: i32) -> Result<CoreValue, Failure>
    ensures { Makes result (unless_zero y (AnInt (int_wrapping_div w32 x y))) }
{
    if y == 0 {
        return Err(Failure::Fails(3));
    }
    Ok(CoreValue::Int(x.wrapping_div(y)))
}

// The remainder has the sign of the dividend.
fn remainder(x: i32, y: i32) -> Result<CoreValue, Failure>
    ensures { Makes result (unless_zero y (AnInt (int_rem x y))) }
{
    if y == 0 {
        return Err(Failure::Fails(3));
    }
    Ok(CoreValue::Int(x.wrapping_rem(y)))
}

// An operator on chars.
fn operate_chars(op: Operator, x: u8, y: u8) -> Result<CoreValue, Failure>
    ensures { Makes result (on_chars (operator_of op) x y) }
{
    match op {
        Operator::Less => Ok(CoreValue::Bool(x < y)),
        Operator::AtMost => Ok(CoreValue::Bool(x <= y)),
        Operator::Greater => Ok(CoreValue::Bool(x > y)),
        Operator::AtLeast => Ok(CoreValue::Bool(x >= y)),
        Operator::Equal => Ok(CoreValue::Bool(x == y)),
        Operator::Unequal => Ok(CoreValue::Bool(x != y)),
        Operator::Plus
        | Operator::Minus
        | Operator::Times
        | Operator::Divide
        | Operator::Remainder
        | Operator::And
        | Operator::Or
        | Operator::Xor
        | Operator::ShiftLeft
        | Operator::ShiftRight
        | Operator::Concat => Err(Failure::Unfit),
    }
}

// A comparison for sameness.
fn compare(op: Operator, same: bool) -> Result<CoreValue, Failure>
    ensures { Makes result (compared (operator_of op) same) }
{
    match op {
        Operator::Equal => Ok(CoreValue::Bool(same)),
        Operator::Unequal => Ok(CoreValue::Bool(!same)),
        Operator::Plus
        | Operator::Minus
        | Operator::Times
        | Operator::Divide
        | Operator::Remainder
        | Operator::Less
        | Operator::AtMost
        | Operator::Greater
        | Operator::AtLeast
        | Operator::And
        | Operator::Or
        | Operator::Xor
        | Operator::ShiftLeft
        | Operator::ShiftRight
        | Operator::Concat => Err(Failure::Unfit),
    }
}
