// What operators become.
ghost use Rattle.std.specs.Prelude.{◌≡◌, ◌+◌, ◌-◌, ◌^◌, ◌≤◌, ◌∷◌, None};
ghost use Rattle.vg_firm.specs.declared.step.Prefix.TheVariants.{Complement};
ghost use Rattle.vg_flatten_values.specs.Values.{operated, applied, computed, computing, comparing, operated_as, combined, bytes_of, test_of, by_order, cut, cut_bits, bytes_around};
ghost use Rattle.vg_flatten_shapes.specs.Made.{is_zero};
ghost use Rattle.vg_flatten_shapes.specs.Laying.{Lays};

use crate::divisions::divided;
use crate::put::{put_home, put_into, put_truth, temp};
use crate::shifts::{bytes_around, bytes_for, concatenated, mask_of, shifted_left, shifted_right};
use std::alloc::Global;
use vg_base::Refusal;
use vg_firm::{Operator as FirmOperator, Order, Prefix};
use vg_flatten_shapes::{Fault, Homes, Piece, Room, Truth};
use vg_lin::{Comparison, Computation, Instr, Operand, Operator, Plain, Test};

pub(crate) fn computed(
    alloc: Global,
    room: Room,
    at: u16,
    operator: Operator,
    width: u8,
    left: Operand,
    right: Operand,
    homes: Homes,
) -> Result<Piece, Refusal<Fault>>
    requires room { room.locals + room.temps ≤ 252 }
    requires settled { homes.truth ≡ None }
    ensures { Lays result at (computed room operator width left right homes.homes) }
{
    let to = temp(room, &homes)?;
    let computation = Computation {
        operator,
        width,
        to,
        left,
        right,
    };
    Ok(put_into(alloc, to, Instr::Plain(Plain::Compute(computation)), homes)?)
}

pub fn operated(
    alloc: Global,
    room: Room,
    at: u16,
    op: FirmOperator,
    homes: Homes,
) -> Result<Piece, Refusal<Fault>>
    requires room { room.locals + room.temps ≤ 252 }
    requires settled { homes.truth ≡ None }
    ensures { Lays result at (operated room op homes.homes) }
{
    let mut homes = homes;
    match homes.pop() {
        Some(right) => match homes.pop() {
            Some(left) => operated_as(alloc, room, at, op, left, right, homes),
            None => Err(Refusal::Fault(Fault::NotTaken)),
        },
        None => Err(Refusal::Fault(Fault::NotTaken)),
    }
}

fn operated_as(
    alloc: Global,
    room: Room,
    at: u16,
    op: FirmOperator,
    left: Operand,
    right: Operand,
    homes: Homes,
) -> Result<Piece, Refusal<Fault>>
    requires room { room.locals + room.temps ≤ 252 }
    requires settled { homes.truth ≡ None }
    ensures { Lays result at (operated_as room op (computing op) (comparing op left right) left right homes.homes) }
{
    match computing(op) {
        Some(operator) => computed(alloc, room, at, operator, 4, left, right, homes),
        None => match comparing(op, left, right) {
            Some(truth) => Ok(put_truth(alloc, truth, homes)),
            None => combined(alloc, room, at, op, left, right, homes),
        },
    }
}

fn combined(
    alloc: Global,
    room: Room,
    at: u16,
    op: FirmOperator,
    left: Operand,
    right: Operand,
    homes: Homes,
) -> Result<Piece, Refusal<Fault>>
    requires room { room.locals + room.temps ≤ 252 }
    requires settled { homes.truth ≡ None }
    ensures { Lays result at (combined room op left right homes.homes) }
{
    match op {
        FirmOperator::Divide => divided(alloc, room, at, Operator::Divide, left, right, homes),
        FirmOperator::Remainder => divided(
            alloc,
            room,
            at,
            Operator::Remainder,
            left,
            right,
            homes,
        ),
        FirmOperator::ShiftLeft(bits) => shifted_left(alloc, room, at, bits, left, right, homes),
        FirmOperator::ShiftRight(bits) => shifted_right(alloc, room, at, bits, left, right, homes),
        FirmOperator::Concat(bits) => concatenated(alloc, room, at, bits, left, right, homes),
        _ => Ok(put_home(alloc, Operand::Known(0), homes)?),
    }
}

fn computing(op: FirmOperator) -> Option<Operator>
    ensures { result ≡ computing op }
{
    match op {
        FirmOperator::Plus => Some(Operator::Plus),
        FirmOperator::Minus => Some(Operator::Minus),
        FirmOperator::Times => Some(Operator::Times),
        FirmOperator::And => Some(Operator::And),
        FirmOperator::Or => Some(Operator::Or),
        FirmOperator::Xor => Some(Operator::Xor),
        _ => None,
    }
}

fn by_order(order: Order) -> Comparison
    ensures { result ≡ by_order order }
{
    match order {
        Order::Signed => Comparison::Less,
        Order::Unsigned => Comparison::Below,
    }
}

pub fn test_of(comparison: Comparison, left: Operand, right: Operand) -> Test
    ensures { result ≡ test_of comparison left right }
{
    Test {
        comparison,
        width: 4,
        left,
        right,
    }
}

fn comparing(op: FirmOperator, left: Operand, right: Operand) -> Option<Truth>
    ensures { result ≡ comparing op left right }
{
    match op {
        FirmOperator::Less(o) => Some(Truth::Holds(test_of(by_order(o), left, right))),
        FirmOperator::AtMost(o) => Some(Truth::Fails(test_of(by_order(o), right, left))),
        FirmOperator::Greater(o) => Some(Truth::Holds(test_of(by_order(o), right, left))),
        FirmOperator::AtLeast(o) => Some(Truth::Fails(test_of(by_order(o), left, right))),
        FirmOperator::Equal => Some(Truth::Holds(test_of(Comparison::Same, left, right))),
        FirmOperator::Unequal => Some(Truth::Fails(test_of(Comparison::Same, left, right))),
        _ => None,
    }
}

pub(crate) fn bytes_of(bits: u8) -> Option<u8>
    ensures { result ≡ bytes_of bits }
{
    if bits == 8 {
        Some(1)
    } else if bits == 16 {
        Some(2)
    } else if bits == 24 {
        Some(3)
    } else if bits == 32 {
        Some(4)
    } else {
        None
    }
}

pub fn applied(
    alloc: Global,
    room: Room,
    at: u16,
    op: Prefix,
    homes: Homes,
) -> Result<Piece, Refusal<Fault>>
    requires room { room.locals + room.temps ≤ 252 }
    requires settled { homes.truth ≡ None }
    ensures { Lays result at (applied room op homes.homes) }
{
    let mut homes = homes;
    match homes.pop() {
        Some(home) => match op {
            Prefix::Not => Ok(put_truth(alloc, Truth::Holds(is_zero(home)), homes)),
            Prefix::Negative => computed(
                alloc,
                room,
                at,
                Operator::Minus,
                4,
                Operand::Known(0),
                home,
                homes,
            ),
            Prefix::Cut(bits) => cut(alloc, room, at, bits, home, homes),
            Prefix::Complement(bits) => complement(alloc, room, at, bits, home, homes),
        },
        None => Err(Refusal::Fault(Fault::NotTaken)),
    }
}

/// So many low bits of a number.
fn cut(
    alloc: Global,
    room: Room,
    at: u16,
    bits: u8,
    home: Operand,
    homes: Homes,
) -> Result<Piece, Refusal<Fault>>
    requires room { room.locals + room.temps ≤ 252 }
    requires settled { homes.truth ≡ None }
    ensures { Lays result at (cut room bits (bytes_of bits) home homes.homes) }
{
    match bytes_of(bits) {
        Some(width) => {
            computed(
                alloc,
                room,
                at,
                Operator::Plus,
                width,
                home,
                Operand::Known(0),
                homes,
            )
        }
        None => cut_bits(alloc, room, at, bits, home, homes),
    }
}

/// The same, where they are no whole bytes.
fn cut_bits(
    alloc: Global,
    room: Room,
    at: u16,
    bits: u8,
    home: Operand,
    homes: Homes,
) -> Result<Piece, Refusal<Fault>>
    requires room { room.locals + room.temps ≤ 252 }
    requires settled { homes.truth ≡ None }
    ensures { Lays result at (cut_bits room bits (bytes_around bits) home homes.homes) }
{
    match bytes_around(bits) {
        Some(width) => {
            let mask = Operand::Known(mask_of(bits));
            computed(alloc, room, at, Operator::And, width, home, mask, homes)
        }
        None => Ok(put_home(alloc, home, homes)?),
    }
}

/// The opposite of each bit of a string.
fn complement(
    alloc: Global,
    room: Room,
    at: u16,
    bits: u8,
    home: Operand,
    homes: Homes,
) -> Result<Piece, Refusal<Fault>>
    requires room { room.locals + room.temps ≤ 252 }
    requires settled { homes.truth ≡ None }
    ensures { Lays result at (applied room (Complement bits) (home ∷ homes.homes)) }
{
    if bits <= 32 {
        let all = Operand::Known(all_of(bits));
        return computed(
            alloc,
            room,
            at,
            Operator::Minus,
            bytes_for(bits),
            all,
            home,
            homes,
        );
    }
    Ok(put_home(alloc, Operand::Known(0), homes)?)
}

/// The number of a string of so many bits that are set.
fn all_of(bits: u8) -> u32
    requires { bits ≤ 32 }
    ensures { result ≡ 2 ^ bits - 1 }
{
    if bits == 32 { u32::MAX } else { mask_of(bits) }
}

/// The test that a number is 0.
pub fn is_zero(home: Operand) -> Test
    ensures { result ≡ is_zero home }
{
    test_of(Comparison::Same, home, Operand::Known(0))
}
