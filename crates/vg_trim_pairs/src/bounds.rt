// How much locals of the older code have at most.
ghost use Rattle.std.specs.Prelude.{◌≡◌, ◌*◌};
ghost use Rattle.vg_trimming.specs.Facts.{most_in, most_known, is_bounded, most_of, lesser, most_joined, most_shifted, most_made, most_computed};

use crate::homes::width_of;
use vg_lin::{Computation, Operand, Operator};
use vg_trimming::Bound;

/// The greatest value of so many bytes.
pub fn most_in(bytes: u8) -> u32
    ensures { result ≡ most_in bytes }
{
    if bytes >= 4 {
        4_294_967_295
    } else if bytes >= 3 {
        16_777_215
    } else if bytes >= 2 {
        65_535
    } else if bytes >= 1 {
        255
    } else {
        0
    }
}

fn most_known(otherwise: u32, bounds: &[Bound], local: u8) -> u32
    ensures { result ≡ most_known otherwise bounds.now local }
{
    match bounds {
        [] => otherwise,
        [one, more @ ..] => {
            if one.local == local {
                one.most
            } else {
                most_known(otherwise, more, local)
            }
        }
    }
}

/// Whether it is told that a local has no more.
pub fn is_bounded(bounds: &[Bound], bound: Bound) -> bool
    ensures { result ≡ is_bounded bounds.now bound }
{
    match bounds {
        [] => false,
        [one, more @ ..] => {
            if one.local == bound.local {
                one.most <= bound.most
            } else {
                is_bounded(more, bound)
            }
        }
    }
}

/// The most that an operand of the older code has.
pub fn most_of(old: &[u8], bounds: &[Bound], operand: Operand) -> u32
    ensures { result ≡ most_of old.now bounds.now operand }
{
    match operand {
        Operand::Local(local) => most_known(most_in(width_of(old, local, 4)), bounds, local),
        Operand::Known(value) => value,
    }
}

fn lesser(a: u32, b: u32) -> u32
    ensures { result ≡ lesser a b }
{
    if a <= b { a } else { b }
}

fn most_joined(left: u32, right: u32) -> u64
    ensures { result ≡ most_joined left right }
{
    if left <= 255 && right <= 255 {
        255
    } else if left <= 65_535 && right <= 65_535 {
        65_535
    } else {
        4_294_967_296
    }
}

fn most_shifted(left: u32, right: Operand) -> u32
    ensures { result ≡ most_shifted left right }
{
    match right {
        Operand::Known(bits) => { if bits < 32 { left >> bits } else { left } }
        Operand::Local(_) => left,
    }
}

fn product(left: u32, right: u32) -> u64
    ensures { result ≡ left * right }
{
    u64::from(left) * u64::from(right)
}

/// The most that comes of operands of at most so much, before it is cut to bytes.
pub fn most_made(operator: Operator, left: u32, right: u32, by: Operand) -> u64
    ensures { result ≡ most_made operator left right by }
{
    match operator {
        Operator::Plus => u64::from(left) + u64::from(right),
        Operator::Times => product(left, right),
        Operator::And => u64::from(lesser(left, right)),
        Operator::Or => most_joined(left, right),
        Operator::Xor => most_joined(left, right),
        Operator::ShiftRight => u64::from(most_shifted(left, by)),
        _ => 4_294_967_296,
    }
}

// The lesser of both.
fn cut_to(made: u64, all: u32) -> u32
    ensures { result ≡ lesser made all }
{
    if made <= u64::from(all) {
        made as u32
    } else {
        all
    }
}

/// The most that a computation gives.
pub fn most_computed(old: &[u8], bounds: &[Bound], c: Computation) -> u32
    ensures { result ≡ most_computed old.now bounds.now c }
{
    let left = most_of(old, bounds, c.left);
    let right = most_of(old, bounds, c.right);
    let made = most_made(c.operator, left, right, c.right);
    cut_to(made, most_in(c.width))
}
