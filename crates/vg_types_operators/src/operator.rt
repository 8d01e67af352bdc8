// Operators of two operands, by the types of their operands.
ghost use Rattle.std.specs.Prelude.{◌≡◌, ℕ, List, IfOk, IfSome};
ghost use Rattle.vg_core.specs.Typing.{Compares};
ghost use Rattle.vg_types_tables.specs.Declares.{Declares, IsKnown};
ghost use Rattle.vg_types_operators.specs.Operators.{sign_of, Gives};
ghost use Rattle.vg_types_operators.specs.Operands.{arithmetic_type, order_type, bits_type, shift_type, concat_type, are_bools};

use crate::compared::comparable;
use vg_base::{Names, NoMemory};
use vg_core::{CoreType, Operator};
use vg_syntax::Kind;
use vg_tree::Node;
use vg_types_tables::Declared;

/// The operator of a sign between two operands, but for `&&` and `||`.
pub(crate) fn operator(sign: Kind) -> Option<Operator>
    ensures { IfSome result (λ o. sign ≡ sign_of o) }
{
    match sign {
        Kind::EqualEqual => Some(Operator::Equal),
        Kind::NotEqual => Some(Operator::Unequal),
        Kind::Less => Some(Operator::Less),
        Kind::LessEqual => Some(Operator::AtMost),
        Kind::Greater => Some(Operator::Greater),
        Kind::GreaterEqual => Some(Operator::AtLeast),
        Kind::Or => Some(Operator::Or),
        Kind::Xor => Some(Operator::Xor),
        Kind::And => Some(Operator::And),
        Kind::ShiftLeft => Some(Operator::ShiftLeft),
        Kind::ShiftRight => Some(Operator::ShiftRight),
        Kind::Concat => Some(Operator::Concat),
        Kind::Plus => Some(Operator::Plus),
        Kind::Minus => Some(Operator::Minus),
        Kind::Star => Some(Operator::Times),
        Kind::Slash => Some(Operator::Divide),
        Kind::Percent => Some(Operator::Remainder),
        _ => None,
    }
}

/// The type of an operator's value, where it takes operands of these types.
pub(crate) fn value_type(
    names: &Names,
    root: &Node,
    declared: &Declared,
    operator: Operator,
    left: CoreType,
    right: CoreType,
) -> Result<Option<CoreType>, NoMemory>
    requires declares { Declares names.now root.now declared.now }
    requires left { IsKnown declared.now.tables left }
    requires right { IsKnown declared.now.tables right }
    ensures { IfOk result (Gives names.now root.now declared.now operator left right) }
{
    match operator {
        Operator::Plus => Ok(arithmetic_type(left, right)),
        Operator::Minus => Ok(arithmetic_type(left, right)),
        Operator::Times => Ok(arithmetic_type(left, right)),
        Operator::Divide => Ok(arithmetic_type(left, right)),
        Operator::Remainder => Ok(arithmetic_type(left, right)),
        Operator::Less => Ok(order_type(left, right)),
        Operator::AtMost => Ok(order_type(left, right)),
        Operator::Greater => Ok(order_type(left, right)),
        Operator::AtLeast => Ok(order_type(left, right)),
        Operator::Equal => comparison_type(names, root, declared, operator, left, right),
        Operator::Unequal => comparison_type(names, root, declared, operator, left, right),
        Operator::And => Ok(bits_type(left, right)),
        Operator::Or => Ok(bits_type(left, right)),
        Operator::Xor => Ok(bits_type(left, right)),
        Operator::ShiftLeft => Ok(shift_type(left, right)),
        Operator::ShiftRight => Ok(shift_type(left, right)),
        Operator::Concat => Ok(concat_type(left, right)),
    }
}

// Of two ints.
fn arithmetic_type(left: CoreType, right: CoreType) -> Option<CoreType>
    ensures { result ≡ arithmetic_type left right }
{
    match left {
        CoreType::IntType => match right {
            CoreType::IntType => Some(CoreType::IntType),
            _ => None,
        },
        _ => None,
    }
}

// Which of two ints or chars is less.
fn order_type(left: CoreType, right: CoreType) -> Option<CoreType>
    ensures { result ≡ order_type left right }
{
    match left {
        CoreType::IntType => match right {
            CoreType::IntType => Some(CoreType::BoolType),
            _ => None,
        },
        CoreType::CharType => match right {
            CoreType::CharType => Some(CoreType::BoolType),
            _ => None,
        },
        _ => None,
    }
}

// Of two bit strings of one width.
fn bits_type(left: CoreType, right: CoreType) -> Option<CoreType>
    ensures { result ≡ bits_type left right }
{
    match left {
        CoreType::RawType(width) => match right {
            CoreType::RawType(other) => { if width == other { Some(left) } else { None } }
            _ => None,
        },
        _ => None,
    }
}

// Of a bit string and an int.
fn shift_type(left: CoreType, right: CoreType) -> Option<CoreType>
    ensures { result ≡ shift_type left right }
{
    match left {
        CoreType::RawType(_) => match right {
            CoreType::IntType => Some(left),
            _ => None,
        },
        _ => None,
    }
}

// Of two bit strings side by side.
fn concat_type(left: CoreType, right: CoreType) -> Option<CoreType>
    ensures { result ≡ concat_type left right }
{
    match left {
        CoreType::RawType(width) => match right {
            CoreType::RawType(other) => {
                if u16::from(width) + u16::from(other) <= 32 {
                    Some(CoreType::RawType(width + other))
                } else {
                    None
                }
            }
            _ => None,
        },
        _ => None,
    }
}

// Whether two values are the same.
fn comparison_type(
    names: &Names,
    root: &Node,
    declared: &Declared,
    operator: Operator,
    left: CoreType,
    right: CoreType,
) -> Result<Option<CoreType>, NoMemory>
    requires declares { Declares names.now root.now declared.now }
    requires left { IsKnown declared.now.tables left }
    requires right { IsKnown declared.now.tables right }
    requires compares { Compares operator }
    ensures { IfOk result (Gives names.now root.now declared.now operator left right) }
{
    if comparable(names, root, declared, left, right)? {
        Ok(Some(CoreType::BoolType))
    } else {
        Ok(None)
    }
}

/// Whether two types are both that of truth values.
pub(crate) fn are_bools(left: CoreType, right: CoreType) -> bool
    ensures { result ≡ are_bools left right }
{
    match left {
        CoreType::BoolType => match right {
            CoreType::BoolType => true,
            _ => false,
        },
        _ => false,
    }
}
