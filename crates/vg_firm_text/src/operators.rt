// Operators as text.
use std::alloc::Global;
use vg_base::NoMemory;
use vg_firm::{Operator, Order, Prefix};

/// The sign of an operator: of comparisons of ints `s<`, of chars `u<`; of shifts and of `#` with the bits behind it.
pub fn operator_text(alloc: Global, operator: Operator) -> Result<String, NoMemory> {
    match operator {
        Operator::ShiftLeft(bits) => Ok(format!(in alloc; "<<{bits}")?),
        Operator::ShiftRight(bits) => Ok(format!(in alloc; ">>{bits}")?),
        Operator::Concat(bits) => Ok(format!(in alloc; "#{bits}")?),
        _ => Ok(String::from_str(alloc, sign_of(operator))?),
    }
}

// The sign of an operator without bits.
fn sign_of(operator: Operator) -> &'static str {
    match operator {
        Operator::Plus => "+",
        Operator::Minus => "-",
        Operator::Times => "*",
        Operator::Divide => "/",
        Operator::Remainder => "%",
        Operator::Less(order) => of_order(order, "s<", "u<"),
        Operator::AtMost(order) => of_order(order, "s<=", "u<="),
        Operator::Greater(order) => of_order(order, "s>", "u>"),
        Operator::AtLeast(order) => of_order(order, "s>=", "u>="),
        Operator::Equal => "==",
        Operator::Unequal => "!=",
        Operator::And => "&",
        Operator::Or => "|",
        Operator::Xor => "^",
        _ => "",
    }
}

fn of_order(order: Order, ints: &'static str, chars: &'static str) -> &'static str {
    match order {
        Order::Signed => ints,
        Order::Unsigned => chars,
    }
}

/// An operator of one number: `neg`, `not`, `~` with its bits, `cut` with the bits that stay.
pub fn prefix_text(alloc: Global, prefix: Prefix) -> Result<String, NoMemory> {
    match prefix {
        Prefix::Negative => Ok(String::from_str(alloc, "neg")?),
        Prefix::Not => Ok(String::from_str(alloc, "not")?),
        Prefix::Complement(bits) => Ok(format!(in alloc; "~{bits}")?),
        Prefix::Cut(bits) => Ok(format!(in alloc; "cut{bits}")?),
    }
}
