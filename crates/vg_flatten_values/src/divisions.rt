// What divisions become.
ghost use Rattle.std.specs.Prelude.{◌≡◌, ◌+◌, ◌≤◌, None};
ghost use Rattle.vg_flatten_shapes.specs.Blocks.{open_code};
ghost use Rattle.vg_flatten_shapes.specs.Laying.{Lays, LaysCode};
ghost use Rattle.vg_flatten_values.specs.Values.{divided, divisor_checked, may_be_zero};

use crate::operators::is_zero;
use crate::put::{put_behind, temp};
use std::alloc::Global;
use vg_base::{Refusal, Row};
use vg_flatten_shapes::{Fault, Homes, Open, Piece, Room, Truth, stop_where};
use vg_lin::{Computation, Instr, Operand, Operator, Plain};

#[tactic(auto, using(vg_flatten_shapes::proofs::Sizes::late))]
pub(crate) fn divided(
    alloc: Global,
    room: Room,
    at: u16,
    operator: Operator,
    left: Operand,
    right: Operand,
    homes: Homes,
) -> Result<Piece, Refusal<Fault>>
    requires room { room.locals + room.temps ≤ 252 }
    requires settled { homes.truth ≡ None }
    ensures { Lays result at (divided room operator left right homes.homes) }
{
    let to = temp(room, &homes)?;
    let checked = divisor_checked(alloc, at, right)?;
    let computation = Computation {
        operator,
        width: 4,
        to,
        left,
        right,
    };
    Ok(put_behind(
        checked,
        to,
        Instr::Plain(Plain::Compute(computation)),
        homes,
    )?)
}

/// The run stops where a divisor is 0.
fn divisor_checked(alloc: Global, at: u16, right: Operand) -> Result<Row<Open>, Refusal<Fault>>
    ensures { LaysCode result (at + 3) (open_code (divisor_checked right) at) }
{
    if may_be_zero(right) {
        return stop_where(alloc, at, 3, Truth::Holds(is_zero(right)));
    }
    Ok(Row::new(alloc))
}

fn may_be_zero(home: Operand) -> bool
    ensures { result ≡ may_be_zero home }
{
    match home {
        Operand::Local(_) => true,
        Operand::Known(v) => v == 0,
    }
}
