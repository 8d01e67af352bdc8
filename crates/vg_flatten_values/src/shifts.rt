// What shifts become.
ghost use Rattle.std.specs.Prelude.{◌≡◌, ◌+◌, ◌-◌, ◌≤◌, ◌<◌, ◌^◌, Some, None};
ghost use Rattle.vg_flatten_shapes.specs.Laying.{Lays};
ghost use Rattle.vg_flatten_values.specs.Values.{shifted_left, shifted_right, concatenated, masked, bytes_of, bytes_around, bytes_for};

use crate::operators::{bytes_of, computed};
use crate::put::{put_behind, put_home, temp};
use std::alloc::Global;
use vg_base::{Refusal, Row};
use vg_flatten_shapes::{Fault, Homes, Open, Piece, Room};
use vg_lin::{Computation, Instr, Operand, Operator, Plain};

pub(crate) fn shifted_left(
    alloc: Global,
    room: Room,
    at: u16,
    bits: u8,
    left: Operand,
    right: Operand,
    homes: Homes,
) -> Result<Piece, Refusal<Fault>>
    requires room { room.locals + room.temps ≤ 252 }
    requires settled { homes.truth ≡ None }
    ensures { Lays result at (shifted_left room bits (bytes_of bits) left right homes.homes) }
{
    match bytes_of(bits) {
        Some(width) => {
            computed(
                alloc,
                room,
                at,
                Operator::ShiftLeft,
                width,
                left,
                right,
                homes,
            )
        }
        None => match bytes_around(bits) {
            Some(width) => masked(alloc, room, at, bits, width, left, right, homes),
            None => Ok(put_home(alloc, Operand::Known(0), homes)?),
        },
    }
}

pub(crate) fn bytes_around(bits: u8) -> Option<u8>
    ensures { result ≡ bytes_around bits }
{
    if bits < 8 {
        Some(1)
    } else if bits < 16 {
        Some(2)
    } else if bits < 24 {
        Some(3)
    } else if bits < 32 {
        Some(4)
    } else {
        None
    }
}

fn masked(
    alloc: Global,
    room: Room,
    at: u16,
    bits: u8,
    width: u8,
    left: Operand,
    right: Operand,
    homes: Homes,
) -> Result<Piece, Refusal<Fault>>
    requires room { room.locals + room.temps ≤ 252 }
    requires settled { homes.truth ≡ None }
    requires few { bytes_around bits ≡ Some width }
    ensures { Lays result at (masked room bits (Some width) left right homes.homes) }
{
    let to = temp(room, &homes)?;
    let shift = Computation {
        operator: Operator::ShiftLeft,
        width,
        to,
        left,
        right,
    };
    let mask = Computation {
        operator: Operator::And,
        width,
        to,
        left: Operand::Local(to),
        right: Operand::Known(mask_of(bits)),
    };
    let mut code = Row::new(alloc);
    code.push(Open::Set(Instr::Plain(Plain::Compute(shift))))?;
    Ok(put_behind(code, to, Instr::Plain(Plain::Compute(mask)), homes)?)
}

/// The number of so many bits that are set.
pub(crate) fn mask_of(bits: u8) -> u32
    requires { bits < 32 }
    ensures { result ≡ 2 ^ bits - 1 }
{
    (1u32 << bits) - 1
}

/// The bytes that hold a string of so many bits.
pub(crate) fn bytes_for(bits: u8) -> u8
    ensures { result ≡ bytes_for bits }
{
    if bits <= 8 {
        1
    } else if bits <= 16 {
        2
    } else if bits <= 24 {
        3
    } else {
        4
    }
}

pub(crate) fn shifted_right(
    alloc: Global,
    room: Room,
    at: u16,
    bits: u8,
    left: Operand,
    right: Operand,
    homes: Homes,
) -> Result<Piece, Refusal<Fault>>
    requires room { room.locals + room.temps ≤ 252 }
    requires settled { homes.truth ≡ None }
    ensures { Lays result at (shifted_right room bits left right homes.homes) }
{
    let width = bytes_for(bits);
    match right {
        Operand::Known(count) => {
            if count < bits as u32 {
                return computed(
                    alloc,
                    room,
                    at,
                    Operator::ShiftRight,
                    width,
                    left,
                    right,
                    homes,
                );
            }
            Ok(put_home(alloc, Operand::Known(0), homes)?)
        }
        Operand::Local(_) => computed(
            alloc,
            room,
            at,
            Operator::ShiftRight,
            width,
            left,
            right,
            homes,
        ),
    }
}

/// A string is put behind another.
pub(crate) fn concatenated(
    alloc: Global,
    room: Room,
    at: u16,
    bits: u8,
    left: Operand,
    right: Operand,
    homes: Homes,
) -> Result<Piece, Refusal<Fault>>
    requires room { room.locals + room.temps ≤ 252 }
    requires settled { homes.truth ≡ None }
    ensures { Lays result at (concatenated room bits left right homes.homes) }
{
    let to = temp(room, &homes)?;
    let shift = Computation {
        operator: Operator::ShiftLeft,
        width: 4,
        to,
        left,
        right: Operand::Known(bits as u32),
    };
    let sum = Computation {
        operator: Operator::Plus,
        width: 4,
        to,
        left: Operand::Local(to),
        right,
    };
    let mut code = Row::new(alloc);
    code.push(Open::Set(Instr::Plain(Plain::Compute(shift))))?;
    Ok(put_behind(code, to, Instr::Plain(Plain::Compute(sum)), homes)?)
}
