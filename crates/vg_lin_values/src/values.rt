// Operators and comparisons. A width counts bytes, from one to four.
ghost use Rattle.std.specs.Prelude.{◌≡◌, ◌≤◌, ◌<◌, ◌^◌, ◌*◌, ◌+◌, ◌-◌, if◌then◌else◌, nat_lt, ◌/◌};
ghost use Rattle.vg_lin.specs.Values.{low, signed, computed, compared, next_remainder, next_dividend, shifted_remainder, shifted_dividend};
ghost use Rattle.vg_lin.specs.declared.instr.Operator.TheVariants.{Divide as SpecDivide, Remainder as SpecRemainder};

use vg_lin::{Comparison, Operator};

/// How many numbers so many bytes have.
fn span(width: u8) -> u64
    requires { width ≤ 4 }
    ensures is { result ≡ 256 ^ width }
    ensures some { 0 < result }
    ensures most { result ≤ 4294967296 }
{
    match width {
        0 => 1,
        1 => 256,
        2 => 65_536,
        3 => 16_777_216,
        _ => 4_294_967_296,
    }
}

/// The low bytes of a number, so many as the width says.
pub fn low(width: u8, x: u64) -> u32
    requires { width ≤ 4 }
    ensures { result ≡ low width x }
{
    (x % span(width)) as u32
}

/// The low bytes of the difference.
fn difference(width: u8, x: u32, y: u32) -> u32
    requires { width ≤ 4 }
    ensures { result ≡ low width (x + (256 ^ width - low width y)) }
{
    let span = span(width);
    low(width, u64::from(x) + (span - u64::from(y) % span))
}

/// The signed number that the low bytes stand for, in two's complement.
fn signed(width: u8, x: u32) -> i64
    requires { width ≤ 4 }
    ensures { result ≡ signed width x }
{
    let span = span(width);
    let low = u64::from(x) % span;
    if 2 * low < span {
        low as i64
    } else {
        low as i64 - span as i64
    }
}

/// Whether the comparison of the low bytes holds.
pub fn compared(comparison: Comparison, width: u8, x: u32, y: u32) -> bool
    requires { width ≤ 4 }
    ensures { result ≡ compared comparison width x y }
{
    match comparison {
        Comparison::Below => low(width, u64::from(x)) < low(width, u64::from(y)),
        Comparison::Less => signed(width, x) < signed(width, y),
        Comparison::Same => low(width, u64::from(x)) == low(width, u64::from(y)),
    }
}

/// What an operator computes of two numbers; nothing where it divides by 0.
pub fn computed(operator: Operator, width: u8, x: u32, y: u32) -> Option<u32>
    requires { width ≤ 4 }
    ensures { result ≡ computed operator width x y }
{
    match operator {
        Operator::Plus => Some(low(width, u64::from(x) + u64::from(y))),
        Operator::Minus => Some(difference(width, x, y)),
        Operator::Times => Some(product(width, x, y)),
        Operator::Divide => quotient(width, x, y),
        Operator::Remainder => remainder(width, x, y),
        Operator::And => Some(low(width, u64::from(x & y))),
        Operator::Or => Some(low(width, u64::from(x | y))),
        Operator::Xor => Some(low(width, u64::from(x ^ y))),
        Operator::ShiftLeft => Some(shifted_left(width, x, y)),
        Operator::ShiftRight => Some(shifted_right(width, x, y)),
    }
}

fn product(width: u8, x: u32, y: u32) -> u32
    requires { width ≤ 4 }
    ensures { result ≡ low width (x * y) }
{
    low(width, u64::from(x) * u64::from(y))
}

#[tactic(auto, using(crate::proofs::Signs::quotient_is, crate::proofs::Signs::not_zero))]
fn quotient(width: u8, x: u32, y: u32) -> Option<u32>
    requires { width ≤ 4 }
    ensures { result ≡ computed SpecDivide width x y }
{
    if y == 0 {
        return None;
    }
    Some(low(
        width,
        u64::from(
            x.cast_signed()
                .wrapping_div(y.cast_signed())
                .cast_unsigned(),
        ),
    ))
}

#[tactic(auto, using(crate::proofs::Signs::remainder_is, crate::proofs::Signs::not_zero))]
fn remainder(width: u8, x: u32, y: u32) -> Option<u32>
    requires { width ≤ 4 }
    ensures { result ≡ computed SpecRemainder width x y }
{
    if y == 0 {
        return None;
    }
    Some(low(
        width,
        u64::from(
            x.cast_signed()
                .wrapping_rem(y.cast_signed())
                .cast_unsigned(),
        ),
    ))
}

fn shifted_left(width: u8, x: u32, count: u32) -> u32
    requires { width ≤ 4 }
    ensures { result ≡ (if nat_lt count (8 * width) then low width (x * 2 ^ count) else 0) }
{
    if count < 8 * u32::from(width) {
        low(width, u64::from(x) << count)
    } else {
        0
    }
}

fn shifted_right(width: u8, x: u32, count: u32) -> u32
    requires { width ≤ 4 }
    ensures { result ≡ (if nat_lt count (8 * width) then low width x / 2 ^ count else 0) }
{
    if count < 8 * u32::from(width) {
        low(width, u64::from(x)) >> count
    } else {
        0
    }
}

/// The product of the low bytes of two numbers.
pub fn byte_product(x: u32, y: u32) -> u32
    ensures { result ≡ low 1 x * low 1 y }
{
    x % 256 * (y % 256)
}

fn shifted_remainder(remainder: u32, dividend: u32) -> u32
    ensures { result ≡ shifted_remainder remainder dividend }
{
    low(
        4,
        2 * u64::from(remainder) + u64::from(dividend / 2_147_483_648),
    )
}

fn shifted_dividend(dividend: u32) -> u32
    ensures is { result ≡ shifted_dividend dividend }
    ensures even { result < 4294967295 }
{
    dividend % 2_147_483_648 * 2
}

/// What one step of a division leaves in the remainder.
pub fn next_remainder(remainder: u32, dividend: u32, divisor: u32) -> u32
    ensures { result ≡ next_remainder remainder dividend divisor }
{
    let shifted = shifted_remainder(remainder, dividend);
    if divisor <= shifted {
        shifted - divisor
    } else {
        shifted
    }
}

/// What it leaves in the dividend: its lowest bit is set where the divisor was taken away.
pub fn next_dividend(remainder: u32, dividend: u32, divisor: u32) -> u32
    ensures { result ≡ next_dividend remainder dividend divisor }
{
    let shifted = shifted_dividend(dividend);
    if divisor <= shifted_remainder(remainder, dividend) {
        shifted + 1
    } else {
        shifted
    }
}
