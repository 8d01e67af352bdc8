// Operators and widths.
ghost use Rattle.std.specs.Prelude.{◌≡◌};
ghost use Rattle.vg_coded.specs.Operators as coded;
ghost use Rattle.vg_coded.specs.Widths as widths;

use vg_core::{CoreType, Operator, Prefix};
use vg_firm::Order;

/// The operator of numbers for one on values of these types.
pub fn operator_for(operator: Operator, left: CoreType, right: CoreType) -> vg_firm::Operator
    ensures { result ≡ coded.operator_for operator left right }
{
    match operator {
        Operator::Plus => vg_firm::Operator::Plus,
        Operator::Minus => vg_firm::Operator::Minus,
        Operator::Times => vg_firm::Operator::Times,
        Operator::Divide => vg_firm::Operator::Divide,
        Operator::Remainder => vg_firm::Operator::Remainder,
        Operator::Less => vg_firm::Operator::Less(order_of(left)),
        Operator::AtMost => vg_firm::Operator::AtMost(order_of(left)),
        Operator::Greater => vg_firm::Operator::Greater(order_of(left)),
        Operator::AtLeast => vg_firm::Operator::AtLeast(order_of(left)),
        Operator::Equal => vg_firm::Operator::Equal,
        Operator::Unequal => vg_firm::Operator::Unequal,
        Operator::And => vg_firm::Operator::And,
        Operator::Or => vg_firm::Operator::Or,
        Operator::Xor => vg_firm::Operator::Xor,
        Operator::ShiftLeft => vg_firm::Operator::ShiftLeft(bits_of(left)),
        Operator::ShiftRight => vg_firm::Operator::ShiftRight(bits_of(left)),
        Operator::Concat => vg_firm::Operator::Concat(bits_of(right)),
    }
}

/// The operator of a number for one on a value of this type.
pub fn prefix_for(prefix: Prefix, operand: CoreType) -> vg_firm::Prefix
    ensures { result ≡ coded.prefix_for prefix operand }
{
    match prefix {
        Prefix::Negative => vg_firm::Prefix::Negative,
        Prefix::Not => vg_firm::Prefix::Not,
        Prefix::Complement => vg_firm::Prefix::Complement(bits_of(operand)),
    }
}

/// What a cast among numbers does: nothing where the second type has as many bits.
pub fn cut_for(from: CoreType, to: CoreType) -> Option<vg_firm::Prefix>
    ensures { result ≡ coded.cut_for from to }
{
    let bits = bits_of(to);
    if bits < bits_of(from) {
        Some(vg_firm::Prefix::Cut(bits))
    } else {
        None
    }
}

/// The bytes of a value where it waits, in a local, as an argument and as a result.
pub fn width_of(type_: CoreType) -> u8
    ensures { result ≡ widths.width_of type_ }
{
    match type_ {
        CoreType::IntType => 4,
        CoreType::BoolType => 1,
        CoreType::CharType => 1,
        CoreType::RawType(bits) => ((u16::from(bits) + 7) / 8) as u8,
        CoreType::NullType => 2,
        CoreType::ClassType(_) => 2,
        CoreType::ArrayType(_) => 2,
        CoreType::FunctionType(_, _) => 4,
        CoreType::NoType => 0,
        CoreType::MoreTypes(_, _) => 0,
    }
}

// The bits of the numbers of a type.
fn bits_of(type_: CoreType) -> u8
    ensures { result ≡ coded.bits_of type_ }
{
    match type_ {
        CoreType::CharType => 8,
        CoreType::RawType(bits) => bits,
        _ => 32,
    }
}

// Chars are compared as they are, ints by their signs.
fn order_of(type_: CoreType) -> Order
    ensures { result ≡ coded.order_of type_ }
{
    match type_ {
        CoreType::CharType => Order::Unsigned,
        _ => Order::Signed,
    }
}
