// Null checks.
ghost use Rattle.std.specs.Prelude.{◌≡◌, ◌+◌, ◌≤◌, IfOk, length};
ghost use Rattle.vg_flatten_shapes.specs.Blocks.{open_code};
ghost use Rattle.vg_flatten_shapes.specs.Laying.{LaysCode};
ghost use Rattle.vg_flatten_places.specs.Places.{may_be_null, null_check};

use std::alloc::Global;
use vg_base::{Refusal, Row};
use vg_flatten_shapes::{Fault, Open, Room, Truth, stop_where};
use vg_flatten_values::is_zero;
use vg_lin::Operand;

/// The run stops where a number is null; the receiver of a method of a class is not.
pub fn null_check(
    alloc: Global,
    room: Room,
    at: u16,
    home: Operand,
) -> Result<Row<Open>, Refusal<Fault>>
    ensures code { LaysCode result (at + 3) (open_code (null_check room home) at) }
    ensures short { IfOk result (λ code. length code ≤ 2) }
{
    if may_be_null(room, home) {
        return stop_where(alloc, at, 1, Truth::Holds(is_zero(home)));
    }
    Ok(Row::new(alloc))
}

fn may_be_null(room: Room, home: Operand) -> bool
    ensures { result ≡ may_be_null room home }
{
    match home {
        Operand::Local(local) => !(room.on_objects && local == 0),
        Operand::Known(value) => value == 0,
    }
}
