// What delegates become.
ghost use Rattle.std.specs.Prelude.{◌≡◌, ◌+◌, ◌≤◌, None};
ghost use Rattle.vg_flatten_shapes.specs.Laying.{Lays, LaysCode};
ghost use Rattle.vg_flatten_shapes.specs.Blocks.{open_code};
ghost use Rattle.vg_flatten_steps.specs.Calls.{bound, found_and_bound, bound_for};

use std::alloc::Global;
use vg_base::{Refusal, Row};
use vg_flatten_places::null_check;
use vg_flatten_shapes::{Fault, Homes, Open, Piece, Room};
use vg_flatten_values::{put_into, temp};
use vg_lin::{Computation, Instr, Operand, Operator, Plain};

/// A delegate of a component's method.
pub(crate) fn bound(
    alloc: Global,
    room: Room,
    at: u16,
    q: u16,
    homes: Homes,
) -> Result<Piece, Refusal<Fault>>
    requires room { room.locals + room.temps ≤ 252 }
    requires settled { homes.truth ≡ None }
    ensures { Lays result at (bound room q homes.homes) }
{
    let to = temp(room, &homes)?;
    Ok(put_into(alloc, to, Instr::Plain(Plain::CodeOf(q, to)), homes)?)
}

/// Behind the null check of the receiver, its number goes above the code number of its procedure.
fn found_and_bound(
    alloc: Global,
    room: Room,
    at: u16,
    dispatch: u32,
    to: u8,
    above: u8,
    home: Operand,
) -> Result<Row<Open>, Refusal<Fault>>
    ensures { LaysCode result (at + 3) (open_code (found_and_bound room dispatch to above home) at) }
{
    let shift = Computation {
        operator: Operator::ShiftLeft,
        width: 4,
        to: above,
        left: home,
        right: Operand::Known(16),
    };
    let sum = Computation {
        operator: Operator::Plus,
        width: 4,
        to,
        left: Operand::Local(to),
        right: Operand::Local(above),
    };
    let mut code = null_check(alloc, room, at, home)?;
    code.push(Open::Set(Instr::Plain(Plain::Compute(shift))))?;
    code.push(Open::Set(Instr::Plain(Plain::Find(dispatch, to, home))))?;
    code.push(Open::Set(Instr::Plain(Plain::Compute(sum))))?;
    Ok(code)
}

/// A delegate of the method that a dispatch has for an object.
#[tactic(auto, using(vg_flatten_shapes::proofs::Sizes::late))]
pub(crate) fn bound_for(
    alloc: Global,
    room: Room,
    at: u16,
    dispatch: u32,
    homes: Homes,
) -> Result<Piece, Refusal<Fault>>
    requires room { room.locals + room.temps ≤ 252 }
    requires settled { homes.truth ≡ None }
    ensures { Lays result at (bound_for room dispatch homes.homes) }
{
    let mut homes = homes;
    match homes.pop() {
        Some(home) => {
            let to = temp(room, &homes)?;
            homes.push(home)?;
            let above = temp(room, &homes)?;
            let code = found_and_bound(alloc, room, at, dispatch, to, above, home)?;
            homes.pop();
            homes.push(Operand::Local(to))?;
            Ok(Piece { code, homes })
        }
        None => Err(Refusal::Fault(Fault::NotTaken)),
    }
}
