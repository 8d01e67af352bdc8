// What tests and casts of objects become.
ghost use Rattle.std.specs.Prelude.{◌≡◌, ◌+◌, ◌≤◌, None};
ghost use Rattle.vg_flatten_shapes.specs.Laying.{Lays, LaysCode};
ghost use Rattle.vg_flatten_shapes.specs.Blocks.{One, Both, open_code, stop_where};
ghost use Rattle.vg_flatten_shapes.specs.declared.open.Truth.TheVariants.{Fails};
ghost use Rattle.vg_flatten_steps.specs.Objects.{is_one_of, cast_to, is_near};
ghost use Rattle.vg_flatten_places.specs.Places.{distance};

use std::alloc::Global;
use vg_base::{Refusal, Row};
use vg_flatten_places::distance;
use vg_flatten_shapes::{
    Fault, Homes, Open, Piece, Room, Truth, append, choice, one, place_behind, stop_where,
};
use vg_flatten_values::{is_zero, temp, test_of};
use vg_lin::{Comparison, Instr, Operand, Test};

fn is_near(to: u8, count: u16) -> Test
    ensures { result ≡ is_near to count }
{
    test_of(
        Comparison::Below,
        Operand::Local(to),
        Operand::Known(count as u32),
    )
}

/// Whether an object's number is one of so many.
pub(crate) fn is_one_of(
    alloc: Global,
    room: Room,
    at: u16,
    first: u16,
    count: u16,
    homes: Homes,
) -> Result<Piece, Refusal<Fault>>
    requires room { room.locals + room.temps ≤ 252 }
    requires settled { homes.truth ≡ None }
    ensures { Lays result at (is_one_of room first count homes.homes) }
{
    let mut homes = homes;
    match homes.pop() {
        Some(home) => {
            let to = temp(room, &homes)?;
            homes.wait_for(Truth::Holds(is_near(to, count)));
            let instr = Instr::Plain(distance(to, first, home));
            Ok(one(alloc, Open::Set(instr), homes)?)
        }
        None => Err(Refusal::Fault(Fault::NotTaken)),
    }
}

/// The run stops unless a number is one of so many.
fn stop_unless_near(
    alloc: Global,
    at: u16,
    to: u8,
    first: u16,
    count: u16,
    home: Operand,
) -> Result<Row<Open>, Refusal<Fault>>
    ensures { LaysCode result (at + 4) (open_code (Both (One (distance to first home)) (stop_where 4 (Fails (is_near to count)))) at) }
{
    let mut code = Row::new(alloc);
    code.push(Open::Set(Instr::Plain(distance(to, first, home))))?;
    let test_at = place_behind(at, 1)?;
    let stop = stop_where(alloc, test_at, 4, Truth::Fails(is_near(to, count)))?;
    Ok(append(code, stop.as_slice())?)
}

/// A cast: the number stays where it is, and the run stops unless it is 0 or one of so many.
#[tactic(auto, using(vg_flatten_shapes::proofs::Sizes::late))]
pub(crate) fn cast_to(
    alloc: Global,
    room: Room,
    at: u16,
    first: u16,
    count: u16,
    homes: Homes,
) -> Result<Piece, Refusal<Fault>>
    requires room { room.locals + room.temps ≤ 252 }
    requires settled { homes.truth ≡ None }
    ensures { Lays result at (cast_to room first count homes.homes) }
{
    let mut homes = homes;
    match homes.pop() {
        Some(home) => {
            homes.push(home)?;
            let to = temp(room, &homes)?;
            let inside = place_behind(at, 1)?;
            let check = stop_unless_near(alloc, inside, to, first, count, home)?;
            let is_object = Truth::Fails(is_zero(home));
            let code = choice(alloc, at, is_object, check.as_slice(), &[])?;
            Ok(Piece { code, homes })
        }
        None => Err(Refusal::Fault(Fault::NotTaken)),
    }
}
