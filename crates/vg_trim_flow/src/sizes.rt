// How many bytes hold values.
use vg_lin::{Instr, Operand, Operator, Plain};

/// The width of a local, or 5 where it has none.
pub fn width_of(widths: &[u8], local: u8) -> u8 {
    match widths.get(usize::from(local)) {
        Some(width) => *width,
        None => 5,
    }
}

/// How many bytes hold the value of an operand: more than any local has where that is not known.
pub fn bytes_of(widths: &[u8], value: Operand) -> u8 {
    match value {
        Operand::Local(local) => width_of(widths, local),
        Operand::Known(number) => {
            if number < 256 {
                1
            } else if number < 65_536 {
                2
            } else {
                5
            }
        }
    }
}

/// How many bytes hold what an instruction gives a local.
pub fn result_bytes(widths: &[u8], instr: Instr) -> u8 {
    match instr {
        Instr::Plain(Plain::Copy(_, value)) => bytes_of(widths, value),
        Instr::Plain(Plain::Compute(c)) => {
            let left = bytes_of(widths, c.left);
            computed_bytes(c.operator, c.width, left, bytes_of(widths, c.right))
        }
        Instr::Plain(Plain::Load(_, width, _, _)) => width,
        Instr::Plain(Plain::ReadDevice(_, _)) => 1,
        _ => 5,
    }
}

/// The largest number of so many bytes.
pub fn full(width: u8) -> u32 {
    match width {
        0 => 0,
        1 => 255,
        2 => 65_535,
        3 => 16_777_215,
        _ => u32::MAX,
    }
}

/// How many bytes hold all numbers up to this one: more than any local has for the largest, of which nothing is known.
pub fn bytes_to(most: u32) -> u8 {
    if most < 256 {
        1
    } else if most < 65_536 {
        2
    } else if most < 16_777_216 {
        3
    } else if most < u32::MAX {
        4
    } else {
        5
    }
}

/// How large a value is: the bytes that hold it, by where it comes from, and what it is at most.
#[derive(Clone, Copy)]
pub struct Size {
    pub bytes: u8,
    pub most: u32,
}

impl Size {
    /// How many bytes hold it.
    pub fn least(self) -> u8 {
        smaller(self.bytes, bytes_to(self.most))
    }

    /// Whether a local of so many bytes holds what the older code has in one of this width.
    pub fn is_held(self, width: u8, has: u8) -> bool {
        has == width
            || (self.bytes <= has && self.bytes <= width)
            || (has <= width && self.most <= full(has))
    }
}

/// The width that a local needs for a value of so many bytes, where the older code has it in a local of this width.
pub fn narrowed(width: u8, bytes: u8) -> u8 {
    if 0 < bytes && bytes < width {
        bytes
    } else {
        width
    }
}

/// How many bytes hold what an operator computes with so many bytes of operands that have so many.
pub fn computed_bytes(operator: Operator, width: u8, left: u8, right: u8) -> u8 {
    match operator {
        Operator::And => narrowed(width, smaller(left, right)),
        Operator::Or => narrowed(width, larger(left, right)),
        Operator::Xor => narrowed(width, larger(left, right)),
        _ => width,
    }
}

/// The smaller of two numbers.
pub fn smaller(first: u8, second: u8) -> u8 {
    if second < first { second } else { first }
}

/// The larger of two numbers.
pub fn larger(first: u8, second: u8) -> u8 {
    if first < second { second } else { first }
}

/// How many bytes locals with these widths have.
pub fn sum_of(widths: &[u8]) -> usize {
    let mut sum = 0usize;
    for width in widths {
        sum = sum.saturating_add(usize::from(*width));
    }
    sum
}
