// What calls become.
ghost use Rattle.std.specs.Prelude.{◌≡◌, ◌+◌, ◌-◌, ◌≤◌, ◌<◌, ◌∷◌, ◌++◌, [], length, None, IfOk, OnOk};
ghost use Rattle.vg_lin.specs.declared.instr.Operand.TheVariants.{Local};
ghost use Rattle.vg_flatten_shapes.specs.Blocks.{call_code, open_code};
ghost use Rattle.vg_flatten_shapes.specs.Laying.{Lays};
ghost use Rattle.vg_flatten_steps.specs.Calls.{in_widths, registers_of, pushed_of, call_with, passing, with_receiver, resulting, called_as, called, passing_found};
ghost use Rattle.vg_flatten_steps.specs.Calls.{called_for, called_on, called_value, called_by};

use std::alloc::Global;
use vg_base::{NoMemory, Refusal, Row};
use vg_flatten_places::null_check;
use vg_flatten_shapes::{
    Fault, Homes, Layout, Open, Passing, Piece, Room, Truth, Width, place_behind, stop_where,
};
use vg_flatten_values::{is_zero, temp};
use vg_lin::{
    Call, Callee, Computation, Instr, Operand, Operator, Passed, Plain, Registers, Target,
};

/// The last four arguments go in registers.
fn registers_of(args: &[Passed]) -> Registers
    ensures { result ≡ registers_of args.now }
{
    match args {
        [a] => Registers::One(*a),
        [a, b] => Registers::Two(*a, *b),
        [a, b, c] => Registers::Three(*a, *b, *c),
        [a, b, c, d] => Registers::Four(*a, *b, *c, *d),
        _ => Registers::Empty,
    }
}

/// The pushes of a call, and the call behind them, behind other code.
fn call_behind(code: Row<Open>, pushed: &[Passed], call: Call) -> Result<Row<Open>, NoMemory>
    ensures { IfOk result (λ all. all ≡ code ++ call_code pushed.now call) }
{
    let mut code = code;
    for arg in pushed {
        code.push(Open::Set(Instr::Plain(Plain::Push(arg.width, arg.value))))?;
    }
    code.push(Open::Set(Instr::Call(call)))?;
    Ok(code)
}

/// A call with these arguments, behind other code.
fn passing(
    code: Row<Open>,
    at: u16,
    callee: Callee,
    to: Option<Target>,
    args: &[Passed],
) -> Result<Row<Open>, NoMemory>
    requires { length args.now ≤ 256 }
    ensures { IfOk result (λ all. all ≡ code ++ open_code (passing callee to args.now) at) }
{
    let pushed = args.len().saturating_sub(4);
    let call = Call {
        callee,
        pushed: pushed as u8,
        registers: registers_of(&args[pushed..]),
        to,
    };
    call_behind(code, &args[..pushed], call)
}

/// Arguments in so many bytes each, behind others; where no width is known, in four.
fn push_args(all: &mut Row<Passed>, widths: &[Width], args: &[Operand]) -> Result<(), NoMemory>
    ensures { OnOk result (all.new ≡ all.old ++ in_widths widths.now args.now) }
{
    match args {
        [] => Ok(()),
        [value, more @ ..] => match widths {
            [] => {
                all.push(Passed {
                    width: 4,
                    value: *value,
                })?;
                push_args(all, widths, more)
            }
            [width, rest @ ..] => {
                all.push(Passed {
                    width: width.bytes(),
                    value: *value,
                })?;
                push_args(all, rest, more)
            }
        },
    }
}

fn in_widths(alloc: Global, widths: &[Width], args: &[Operand]) -> Result<Row<Passed>, NoMemory>
    ensures { IfOk result (λ all. all ≡ in_widths widths.now args.now) }
{
    let mut all = Row::new(alloc);
    push_args(&mut all, widths, args)?;
    Ok(all)
}

/// A procedure that gets a receiver is called on none.
fn with_receiver(
    alloc: Global,
    receives: bool,
    args: Row<Operand>,
) -> Result<Row<Operand>, NoMemory>
    ensures { IfOk result (λ all. all ≡ with_receiver receives args) }
{
    if receives {
        return with_first(alloc, Operand::Known(0), args.as_slice());
    }
    Ok(args)
}

/// An argument before the others.
fn with_first(alloc: Global, first: Operand, args: &[Operand]) -> Result<Row<Operand>, NoMemory>
    ensures { IfOk result (λ all. all ≡ first ∷ args.now) }
{
    let mut all = Vec::new(alloc);
    all.push(first)?;
    all.extend_from_slice(args)?;
    Ok(Row::from_vec(all))
}

/// A call whose result goes to a temporary, where it has one.
fn resulting(
    alloc: Global,
    room: Room,
    at: u16,
    callee: Callee,
    given: Option<Width>,
    args: &[Passed],
    homes: Homes,
) -> Result<Piece, Refusal<Fault>>
    requires room { room.locals + room.temps ≤ 252 }
    requires settled { homes.truth ≡ None }
    requires few { length args.now ≤ 256 }
    ensures { Lays result at (resulting room callee given args.now homes.homes) }
{
    let mut homes = homes;
    match given {
        Some(width) => {
            let local = temp(room, &homes)?;
            let width = width.bytes();
            let code = passing(
                Row::new(alloc),
                at,
                callee,
                Some(Target { width, local }),
                args,
            )?;
            homes.push(Operand::Local(local))?;
            Ok(Piece { code, homes })
        }
        None => {
            let code = passing(Row::new(alloc), at, callee, None, args)?;
            homes.push(Operand::Known(0))?;
            Ok(Piece { code, homes })
        }
    }
}

/// A procedure is called by its number, as it is called.
fn called_as(
    alloc: Global,
    room: Room,
    at: u16,
    q: u16,
    passing: &Passing,
    args: Row<Operand>,
    homes: Homes,
) -> Result<Piece, Refusal<Fault>>
    requires room { room.locals + room.temps ≤ 252 }
    requires settled { homes.truth ≡ None }
    requires few { length args ≤ 255 }
    ensures { Lays result at (called_as room q passing.now args homes.homes) }
{
    let args = with_receiver(alloc, passing.receives, args)?;
    let args = in_widths(alloc, passing.widths.as_slice(), args.as_slice())?;
    let callee = Callee::Procedure(q);
    resulting(
        alloc,
        room,
        at,
        callee,
        passing.result,
        args.as_slice(),
        homes,
    )
}

/// A procedure is called by its number.
pub(crate) fn called(
    alloc: Global,
    layout: &Layout,
    room: Room,
    at: u16,
    q: u16,
    count: u8,
    homes: Homes,
) -> Result<Piece, Refusal<Fault>>
    requires room { room.locals + room.temps ≤ 252 }
    requires settled { homes.truth ≡ None }
    ensures { Lays result at (called layout.now room q count homes.homes) }
{
    let mut homes = homes;
    match homes.take_newest(alloc, count as usize)? {
        Some(args) => match layout.passing.as_slice().get(q as usize) {
            Some(passing) => called_as(alloc, room, at, q, passing, args, homes),
            None => {
                let passing = Passing {
                    receives: false,
                    widths: Row::new(alloc),
                    result: Some(Width::Four),
                };
                called_as(alloc, room, at, q, &passing, args, homes)
            }
        },
        None => Err(Refusal::Fault(Fault::NotTaken)),
    }
}

/// A procedure that is found in the run gets two bytes of its receiver, which is the first argument, and four of each other; and it gives back four.
fn passing_found(
    alloc: Global,
    code: Row<Open>,
    at: u16,
    callee: Callee,
    to: u8,
    args: &[Operand],
) -> Result<Row<Open>, NoMemory>
    requires { length args.now ≤ 256 }
    ensures { IfOk result (λ all. all ≡ code ++ open_code (passing_found callee to args.now) at) }
{
    let args = in_widths(alloc, &[Width::Two], args)?;
    let target = Target {
        width: 4,
        local: to,
    };
    passing(code, at, callee, Some(target), args.as_slice())
}

/// The procedure that a dispatch has for an object is called on it.
pub(crate) fn called_for(
    alloc: Global,
    room: Room,
    at: u16,
    dispatch: u32,
    count: u8,
    homes: Homes,
) -> Result<Piece, Refusal<Fault>>
    requires room { room.locals + room.temps ≤ 252 }
    requires settled { homes.truth ≡ None }
    ensures { Lays result at (called_for room dispatch count homes.homes) }
{
    let code = temp(room, &homes)?;
    let mut homes = homes;
    match homes.take_newest(alloc, count as usize + 1)? {
        Some(args) => called_on(alloc, room, at, dispatch, code, args.as_slice(), homes),
        None => Err(Refusal::Fault(Fault::NotTaken)),
    }
}

#[tactic(auto, using(vg_flatten_shapes::proofs::Sizes::late))]
fn called_on(
    alloc: Global,
    room: Room,
    at: u16,
    dispatch: u32,
    code: u8,
    args: &[Operand],
    homes: Homes,
) -> Result<Piece, Refusal<Fault>>
    requires room { room.locals + room.temps ≤ 252 }
    requires settled { homes.truth ≡ None }
    requires few { length args.now ≤ 256 }
    ensures { Lays result at (called_on room dispatch code args.now homes.homes) }
{
    match args {
        [] => Err(Refusal::Fault(Fault::NotTaken)),
        [home, ..] => {
            let to = temp(room, &homes)?;
            let mut all = null_check(alloc, room, at, *home)?;
            all.push(Open::Set(Instr::Plain(Plain::Find(dispatch, code, *home))))?;
            let call_at = place_behind(at, all.len())?;
            let callee = Callee::Code(Operand::Local(code));
            let all = passing_found(alloc, all, call_at, callee, to, args)?;
            let mut homes = homes;
            homes.push(Operand::Local(to))?;
            Ok(Piece { code: all, homes })
        }
    }
}

/// A delegate is called.
pub(crate) fn called_value(
    alloc: Global,
    room: Room,
    at: u16,
    count: u8,
    homes: Homes,
) -> Result<Piece, Refusal<Fault>>
    requires room { room.locals + room.temps ≤ 252 }
    requires settled { homes.truth ≡ None }
    ensures { Lays result at (called_value room count homes.homes) }
{
    let receiver = temp(room, &homes)?;
    let mut homes = homes;
    match homes.take_newest(alloc, count as usize + 1)? {
        Some(args) => called_by(alloc, room, at, receiver, args.as_slice(), homes),
        None => Err(Refusal::Fault(Fault::NotTaken)),
    }
}

#[tactic(auto, using(vg_flatten_shapes::proofs::Sizes::late))]
fn called_by(
    alloc: Global,
    room: Room,
    at: u16,
    receiver: u8,
    args: &[Operand],
    homes: Homes,
) -> Result<Piece, Refusal<Fault>>
    requires room { room.locals + room.temps ≤ 252 }
    requires settled { homes.truth ≡ None }
    requires few { length args.now ≤ 256 }
    ensures { Lays result at (called_by room receiver args.now homes.homes) }
{
    match args {
        [] => Err(Refusal::Fault(Fault::NotTaken)),
        [home, rest @ ..] => {
            let to = temp(room, &homes)?;
            let mut all = stop_where(alloc, at, 1, Truth::Holds(is_zero(*home)))?;
            all.push(Open::Set(Instr::Plain(Plain::Compute(Computation {
                operator: Operator::ShiftRight,
                width: 4,
                to: receiver,
                left: *home,
                right: Operand::Known(16),
            }))))?;
            let call_at = place_behind(at, 3)?;
            let passed = with_first(alloc, Operand::Local(receiver), rest)?;
            let callee = Callee::Code(*home);
            let all = passing_found(alloc, all, call_at, callee, to, passed.as_slice())?;
            let mut homes = homes;
            homes.push(Operand::Local(to))?;
            Ok(Piece { code: all, homes })
        }
    }
}
