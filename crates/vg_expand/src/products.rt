// The code in place of a product.
ghost use Rattle.std.specs.Prelude.{◌≡◌, ◌<◌, ◌+◌, ◌*◌, ◌++◌, [], ◌∷◌, ◌==◌, false, OnOk};
ghost use Rattle.vg_expand.specs.Code.{is_narrow as narrow, worked_out, product_of, power_of as power_in, shifted_by, joined_by, is_in as stands_in};
ghost use Rattle.vg_expand.specs.Code.{by_difference, in_two, by_power, by_factor, multiplying};

use crate::calls::{in_four, push_call, push_cut};
use vg_base::{NoMemory, Row};
use vg_lin::{Computation, Instr, Operand, Operator, Plain, Registers};

/// Puts what stands for a product behind the code.
///
/// Of two known numbers it is worked out. By one known number it is a shift, or a shift and a sum or a difference, where that number is
/// a power of 2 or next to one; of two bytes it is one instruction; any other is a call.
pub fn push_product(
    code: &mut Row<Instr>,
    c: Computation,
    first: u16,
    widths: &[u8],
) -> Result<(), NoMemory>
    ensures { OnOk result (code.new ≡ code.old ++ multiplying (record { first = first; widths = widths.now }) c c.left c.right) }
{
    match c.left {
        Operand::Known(left) => match c.right {
            Operand::Known(right) => code.push(Instr::Plain(Plain::Copy(
                c.to,
                Operand::Known(work_out(c.width, left, right)),
            ))),
            Operand::Local(_) => push_factor(code, c, c.right, left, first, widths),
        },
        Operand::Local(_) => match c.right {
            Operand::Known(right) => push_factor(code, c, c.left, right, first, widths),
            Operand::Local(_) => push_any(code, c, c.left, c.right, first, widths),
        },
    }
}

// The low bytes of the product of two known numbers.
fn work_out(width: u8, left: u32, right: u32) -> u32
    ensures { result ≡ worked_out width (left * right) }
{
    let product = left.wrapping_mul(right);
    if width == 0 {
        0
    } else if width == 1 {
        product % 0x100
    } else if width == 2 {
        product % 0x1_0000
    } else if width == 3 {
        product % 0x100_0000
    } else {
        product
    }
}

fn push_factor(
    code: &mut Row<Instr>,
    c: Computation,
    a: Operand,
    k: u32,
    first: u16,
    widths: &[u8],
) -> Result<(), NoMemory>
    ensures { OnOk result (code.new ≡ code.old ++ by_factor (record { first = first; widths = widths.now }) c a k (k == 0)) }
{
    if k == 0 {
        code.push(Instr::Plain(Plain::Copy(c.to, Operand::Known(0))))
    } else {
        push_power(code, c, a, k, first, widths)
    }
}

fn push_power(
    code: &mut Row<Instr>,
    c: Computation,
    a: Operand,
    k: u32,
    first: u16,
    widths: &[u8],
) -> Result<(), NoMemory>
    requires { 0 < k }
    ensures { OnOk result (code.new ≡ code.old ++ by_power (record { first = first; widths = widths.now }) c a k (power_in k)) }
{
    match power_of(u64::from(k)) {
        Some(n) => code.push(shifted(c, a, n)),
        None => {
            if is_in(a, c.to) {
                push_any(code, c, a, Operand::Known(k), first, widths)
            } else {
                push_sum(code, c, a, k, first, widths)
            }
        }
    }
}

fn push_sum(
    code: &mut Row<Instr>,
    c: Computation,
    a: Operand,
    k: u32,
    first: u16,
    widths: &[u8],
) -> Result<(), NoMemory>
    requires { 0 < k }
    ensures { OnOk result (code.new ≡ code.old ++ in_two (record { first = first; widths = widths.now }) c a k false) }
{
    match power_of(u64::from(k - 1)) {
        Some(n) => {
            code.push(shifted(c, a, n))?;
            code.push(joined(Operator::Plus, c, a))
        }
        None => push_difference(code, c, a, k, first, widths),
    }
}

fn push_difference(
    code: &mut Row<Instr>,
    c: Computation,
    a: Operand,
    k: u32,
    first: u16,
    widths: &[u8],
) -> Result<(), NoMemory>
    ensures { OnOk result (code.new ≡ code.old ++ by_difference (record { first = first; widths = widths.now }) c a k (power_in (k + 1))) }
{
    match power_of(u64::from(k) + 1) {
        Some(n) => {
            code.push(shifted(c, a, n))?;
            code.push(joined(Operator::Minus, c, a))
        }
        None => push_any(code, c, a, Operand::Known(k), first, widths),
    }
}

// The product of two bytes, or a call.
fn push_any(
    code: &mut Row<Instr>,
    c: Computation,
    a: Operand,
    b: Operand,
    first: u16,
    widths: &[u8],
) -> Result<(), NoMemory>
    ensures { OnOk result (code.new ≡ code.old ++ product_of (record { first = first; widths = widths.now }) c a b) }
{
    if is_narrow(widths, a) && is_narrow(widths, b) {
        code.push(Instr::Plain(Plain::Product(c.to, a, b)))?;
        push_cut(code, c.width, c.to)
    } else {
        push_call(code, first, Registers::Two(in_four(a), in_four(b)), c)
    }
}

// Whether an operand has one byte.
fn is_narrow(widths: &[u8], a: Operand) -> bool
    ensures { result ≡ narrow widths.now a }
{
    match a {
        Operand::Local(local) => match widths.get(usize::from(local)) {
            Some(width) => *width == 1,
            None => false,
        },
        Operand::Known(value) => value < 256,
    }
}

// Whether an operand is this local.
fn is_in(a: Operand, to: u8) -> bool
    ensures { result ≡ stands_in a to }
{
    match a {
        Operand::Local(local) => local == to,
        Operand::Known(_) => false,
    }
}

fn shifted(c: Computation, a: Operand, bits: u32) -> Instr
    ensures { result ≡ shifted_by c a bits }
{
    Instr::Plain(Plain::Compute(Computation {
        operator: Operator::ShiftLeft,
        width: c.width,
        to: c.to,
        left: a,
        right: Operand::Known(bits),
    }))
}

fn joined(operator: Operator, c: Computation, a: Operand) -> Instr
    ensures { result ≡ joined_by operator c a }
{
    Instr::Plain(Plain::Compute(Computation {
        operator,
        width: c.width,
        to: c.to,
        left: Operand::Local(c.to),
        right: a,
    }))
}

// The number below 32 whose power of 2 this is.
fn power_of(k: u64) -> Option<u32>
    ensures { result ≡ power_in k }
{
    let mut power = 1u64;
    for n in 0..32u32 {
        if power == k {
            return Some(n);
        }
        power *= 2;
    }
    None
}
