// What operators make of numbers, and which operands they take.
ghost use Rattle.std.specs.Prelude.{◌≡◌, ◌≤◌, ◌<◌, ◌^◌, ◌*◌, ◌%◌, ◌+◌, ◌-◌, true, nat_lt, Some, None, if◌then◌else◌};
ghost use Rattle.vg_firm.specs.Meaning.{fits};
ghost use Rattle.vg_firm.specs.Operators as meaning;
ghost use Rattle.vg_firm.specs.declared.step.Operator.TheVariants.{Plus, Minus, Times, Divide, Remainder, ShiftLeft, ShiftRight};

use vg_firm::{Operator, Order, Prefix};

/// Whether so many bytes hold a number.
pub fn fits(width: u8, value: u32) -> bool
    ensures { result ≡ fits width value }
{
    if width >= 4 {
        return true;
    }
    match width {
        0 => value == 0,
        1 => value < 256,
        2 => value < 65_536,
        3 => value < 16_777_216,
        _ => unreachable!(),
    }
}

/// What an operator makes of two numbers; nothing where it divides by 0.
pub fn computed(operator: Operator, left: u32, right: u32) -> Option<u32>
    requires { meaning.has_strings operator left right ≡ true }
    ensures { result ≡ meaning.computed operator left right }
{
    match operator {
        Operator::Plus => Some(sum(left, right)),
        Operator::Minus => Some(difference(left, right)),
        Operator::Times => Some(product(left, right)),
        Operator::Divide => quotient(left, right),
        Operator::Remainder => remainder(left, right),
        Operator::And => Some(left & right),
        Operator::Or => Some(left | right),
        Operator::Xor => Some(left ^ right),
        Operator::ShiftLeft(bits) => Some(shifted_left(bits, left, right)),
        Operator::ShiftRight(bits) => Some(shifted_right(bits, left, right)),
        Operator::Concat(bits) => joined(bits, left, right),
        Operator::Less(order) => Some(u32::from(is_less(order, left, right))),
        Operator::AtMost(order) => Some(u32::from(is_at_most(order, left, right))),
        Operator::Greater(order) => Some(u32::from(is_less(order, right, left))),
        Operator::AtLeast(order) => Some(u32::from(is_at_most(order, right, left))),
        Operator::Equal => Some(u32::from(left == right)),
        Operator::Unequal => Some(u32::from(left != right)),
    }
}

/// What an operator makes of one number.
pub fn applied(prefix: Prefix, value: u32) -> u32
    requires { meaning.has_string prefix value ≡ true }
    ensures { result ≡ meaning.applied prefix value }
{
    match prefix {
        Prefix::Negative => value.cast_signed().wrapping_neg().cast_unsigned(),
        Prefix::Not => u32::from(value == 0),
        Prefix::Complement(bits) => complemented(bits, value),
        Prefix::Cut(bits) => low_bits(bits, value),
    }
}

/// Whether an operator takes these numbers.
pub fn takes_both(operator: Operator, left: u32, right: u32) -> bool
    ensures { result ≡ meaning.has_strings operator left right }
{
    match operator {
        Operator::ShiftLeft(bits) => is_string(bits, left),
        Operator::ShiftRight(bits) => is_string(bits, left),
        Operator::Concat(bits) => is_string(bits, right) && joined(bits, left, right).is_some(),
        _ => true,
    }
}

/// Whether an operator takes this number.
pub fn takes(prefix: Prefix, value: u32) -> bool
    ensures { result ≡ meaning.has_string prefix value }
{
    match prefix {
        Prefix::Complement(bits) => is_string(bits, value),
        _ => true,
    }
}

// Whether a number is a string of so many bits, at most 32.
fn is_string(bits: u8, value: u32) -> bool
    ensures { result ≡ meaning.is_string bits value }
{
    bits <= 32 && u64::from(value) < (1u64 << bits)
}

// The left bits above the right ones, where these are at most 32 bits.
fn joined(bits: u8, left: u32, right: u32) -> Option<u32>
    requires { bits ≤ 32 }
    ensures { result ≡ (if nat_lt (left * 2 ^ bits + right) (2 ^ 32) then Some (left * 2 ^ bits + right) else None) }
{
    let whole = (u64::from(left) << bits) + u64::from(right);
    if whole < 4_294_967_296 {
        Some(whole as u32)
    } else {
        None
    }
}

fn sum(left: u32, right: u32) -> u32
    ensures { Some result ≡ meaning.computed Plus left right }
{
    left.cast_signed()
        .wrapping_add(right.cast_signed())
        .cast_unsigned()
}

fn difference(left: u32, right: u32) -> u32
    ensures { Some result ≡ meaning.computed Minus left right }
{
    left.cast_signed()
        .wrapping_sub(right.cast_signed())
        .cast_unsigned()
}

fn product(left: u32, right: u32) -> u32
    ensures { Some result ≡ meaning.computed Times left right }
{
    left.cast_signed()
        .wrapping_mul(right.cast_signed())
        .cast_unsigned()
}

// Division is toward zero.
fn quotient(left: u32, right: u32) -> Option<u32>
    ensures { result ≡ meaning.computed Divide left right }
{
    let divisor = right.cast_signed();
    if right == 0 || divisor == 0 {
        return None;
    }
    Some(left.cast_signed().wrapping_div(divisor).cast_unsigned())
}

// The remainder has the sign of the dividend.
fn remainder(left: u32, right: u32) -> Option<u32>
    ensures { result ≡ meaning.computed Remainder left right }
{
    let divisor = right.cast_signed();
    if right == 0 || divisor == 0 {
        return None;
    }
    Some(left.cast_signed().wrapping_rem(divisor).cast_unsigned())
}

fn is_less(order: Order, left: u32, right: u32) -> bool
    ensures { result ≡ meaning.is_less order left right }
{
    match order {
        Order::Signed => left.cast_signed() < right.cast_signed(),
        Order::Unsigned => left < right,
    }
}

fn is_at_most(order: Order, left: u32, right: u32) -> bool
    ensures { result ≡ meaning.is_at_most order left right }
{
    match order {
        Order::Signed => left.cast_signed() <= right.cast_signed(),
        Order::Unsigned => left <= right,
    }
}

// A string shifted up; the bits above its width are lost, and an amount below 0 or from the width up leaves nothing.
fn shifted_left(bits: u8, string: u32, amount: u32) -> u32
    requires { bits ≤ 32 }
    ensures { Some result ≡ meaning.computed (ShiftLeft bits) string amount }
{
    let amount = amount.cast_signed();
    if amount < 0 || amount >= i32::from(bits) {
        return 0;
    }
    let all = u64::from(string) << amount.unsigned_abs();
    (all % (1u64 << bits)) as u32
}

// A string shifted down.
fn shifted_right(bits: u8, string: u32, amount: u32) -> u32
    requires { bits ≤ 32 }
    ensures { Some result ≡ meaning.computed (ShiftRight bits) string amount }
{
    let amount = amount.cast_signed();
    if amount < 0 || amount >= i32::from(bits) {
        return 0;
    }
    string >> amount.unsigned_abs()
}

// The opposite of each of so many bits.
fn complemented(bits: u8, string: u32) -> u32
    requires bits { bits ≤ 32 }
    requires string { string < 2 ^ bits }
    ensures { result ≡ 2 ^ bits - 1 - string }
{
    ((1u64 << bits) - 1 - u64::from(string)) as u32
}

// So many of the low bits.
fn low_bits(bits: u8, value: u32) -> u32
    ensures { result ≡ value % 2 ^ bits }
{
    if bits >= 32 {
        return value;
    }
    value % (1u32 << bits)
}
