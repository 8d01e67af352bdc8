// Code to pieces.
ghost use Rattle.std.specs.Prelude.{◌≡◌, ◌+◌, ◌≤◌, ◌∷◌, ◌++◌, [], length, map, OnOk, IfOk, Some, None};
ghost use Rattle.vg_meaning.specs.Code.{Nothing, Then, If};
ghost use Rattle.vg_firm.specs.Held.{code_of, list_of};
ghost use Rattle.vg_flatten_shapes.specs.Shapes.{only, empty, is_empty, temp};
ghost use Rattle.vg_flatten_shapes.specs.Blocks.{Block, Skip, open_code, loop_code, closed};
ghost use Rattle.vg_flatten_control.specs.Flat.{repeated_body, landed, landed_as, flat, given_back, repeated, where_empty, chosen, joined};
ghost use Rattle.vg_flatten_shapes.specs.Made.{Gives, after, settled, tested};
ghost use Rattle.vg_flatten_control.specs.Weights.{arms_list, arm_then};
ghost use Rattle.vg_flatten_shapes.specs.Laying.{Lays, LaysCode, Places};
ghost use Rattle.vg_flatten_control.specs.Joining.{Tests, Joins};

use std::alloc::Global;
use vg_base::{NoMemory, Refusal, Row};
use vg_firm::Code;
use vg_flatten_shapes::{
    Fault, Homes, Layout, Open, Piece, Room, Truth, append, behind, branch, choice, nothing, one,
    place_behind, same_operand,
};
use vg_flatten_steps::stepped;
use vg_flatten_values::{is_zero, temp};
use vg_lin::{Instr, Operand, Plain};

/// A truth value that waits as a test becomes a number, in the temporary of its height; `TooHigh` where there is none.
pub fn settle(alloc: Global, room: Room, at: u16, homes: Homes) -> Result<Piece, Refusal<Fault>>
    requires { room.locals + room.temps ≤ 252 }
    ensures { Lays result at (settled room homes) }
{
    match homes.truth() {
        None => Ok(nothing(alloc, homes)),
        Some(truth) => make_number(alloc, room, at, truth, homes),
    }
}

#[tactic(auto, using(vg_flatten_shapes::proofs::Sizes::late))]
fn make_number(
    alloc: Global,
    room: Room,
    at: u16,
    truth: Truth,
    homes: Homes,
) -> Result<Piece, Refusal<Fault>>
    requires room { room.locals + room.temps ≤ 252 }
    requires waits { homes.truth ≡ Some truth }
    ensures { Lays result at (settled room homes) }
{
    let to = temp(room, &homes)?;
    let yes = [Open::Set(Instr::Plain(Plain::Copy(to, Operand::Known(1))))];
    let no = [Open::Set(Instr::Plain(Plain::Copy(to, Operand::Known(0))))];
    let code = choice(alloc, at, truth, yes.as_slice(), no.as_slice())?;
    let mut homes = homes;
    homes.forget_truth();
    homes.push(Operand::Local(to))?;
    Ok(Piece { code, homes })
}

/// The newest value is brought to the temporary of its height.
fn land(alloc: Global, room: Room, at: u16, homes: Homes) -> Result<Piece, Refusal<Fault>>
    requires room { room.locals + room.temps ≤ 252 }
    requires settled { homes.truth ≡ None }
    ensures { Lays result at (landed_as room homes.homes) }
{
    let mut homes = homes;
    match homes.pop() {
        None => Ok(nothing(alloc, homes)),
        Some(home) => {
            let to = temp(room, &homes)?;
            if same_operand(Operand::Local(to), home) {
                homes.push(home)?;
                return Ok(nothing(alloc, homes));
            }
            homes.push(Operand::Local(to))?;
            Ok(one(alloc, Open::Set(Instr::Plain(Plain::Copy(to, home))), homes)?)
        }
    }
}

/// The truth value that waits is taken: the test, or that the newest value is not 0.
pub fn take_truth(homes: &mut Homes) -> Option<Truth>
    ensures { Tests result (tested homes.old) homes.new }
{
    match homes.truth() {
        Some(truth) => {
            homes.forget_truth();
            Some(truth)
        }
        None => match homes.pop() {
            Some(home) => Some(Truth::Fails(is_zero(home))),
            None => None,
        },
    }
}

/// The code of a loop, from a place on, of the codes of its parts at their places; `TooLong` where it leads to a place above 65,535.
pub fn repetition(
    at: u16,
    before: Row<Open>,
    truth: Truth,
    body: &[Open],
    next: &[Open],
) -> Result<Row<Open>, Refusal<Fault>>
    ensures { LaysCode result (at + 2 + length before + length body.now + length next.now) (loop_code truth at before body.now next.now) }
{
    let test_at = place_behind(at, before.len())?;
    let body_at = place_behind(test_at, 1)?;
    let next_at = place_behind(body_at, body.len())?;
    let jump_at = place_behind(next_at, next.len())?;
    let end = place_behind(jump_at, 1)?;
    let mut code = before;
    code.push(Open::Set(branch(truth, end)))?;
    let code = append_closed(code, body, end, next_at)?;
    let mut code = append(code, next)?;
    code.push(Open::Set(Instr::Jump(at)))?;
    Ok(code)
}

/// The code with a loop's body behind it, whose jumps out of the loop get their places.
fn append_closed(
    code: Row<Open>,
    body: &[Open],
    end: u16,
    again: u16,
) -> Result<Row<Open>, NoMemory>
    ensures { IfOk result (λ r. r ≡ code ++ map (closed end again) body.now) }
{
    let mut code = code;
    for jump in body {
        code.push(closed(*jump, end, again))?;
    }
    Ok(code)
}

fn closed(jump: Open, end: u16, again: u16) -> Open
    ensures { result ≡ closed end again jump }
{
    match jump {
        Open::Set(instr) => Open::Set(instr),
        Open::Break => Open::Set(Instr::Jump(end)),
        Open::Continue => Open::Set(Instr::Jump(again)),
    }
}

/// The end of a body gives a value back; `NotTaken` where not just one value waits.
pub fn give_back(alloc: Global, room: Room, at: u16, homes: Homes) -> Result<Piece, Refusal<Fault>>
    requires { homes.truth ≡ None }
    ensures { Lays result at (given_back room homes.homes) }
{
    let mut homes = homes;
    match homes.pop() {
        None => Err(Refusal::Fault(Fault::NotTaken)),
        Some(home) => {
            if homes.is_empty() {
                return Ok(one(alloc, Open::Set(Instr::Return(room.result, home)), homes)?);
            }
            Err(Refusal::Fault(Fault::NotTaken))
        }
    }
}

/// The newest value is brought to the temporary of its height, also where it is a test.
fn landing(alloc: Global, room: Room, at: u16, homes: Homes) -> Result<Piece, Refusal<Fault>>
    requires { room.locals + room.temps ≤ 252 }
    ensures { Lays result at (after (settled room homes) (λ s. landed_as room s.homes)) }
{
    let first = settle(alloc, room, at, homes)?;
    let rest_at = place_behind(at, first.code.len())?;
    let rest = land(alloc, room, rest_at, first.homes)?;
    Ok(behind(first.code, rest)?)
}

/// The same of no code.
fn landed_nothing(alloc: Global, room: Room, at: u16, homes: Homes) -> Result<Piece, Refusal<Fault>>
    requires { room.locals + room.temps ≤ 252 }
    ensures { Lays result at (landed room (Gives Skip homes)) }
{
    landing(alloc, room, at, homes)
}

/// The place of what is done where a truth value is false, behind the branch, the other way of so many instructions, and the jump.
pub fn rest_place(at: u16, first: usize) -> Result<u16, Refusal<Fault>>
    ensures { Places result (at + 1 + first + 1) }
{
    let first_at = place_behind(at, 1)?;
    let jump_at = place_behind(first_at, first)?;
    place_behind(jump_at, 1)
}

/// Both ways of a choice join, where they leave the values in the same homes; `NotTaken` where they don't.
pub fn join(
    alloc: Global,
    at: u16,
    truth: Truth,
    first: Piece,
    rest: Piece,
) -> Result<Piece, Refusal<Fault>>
    ensures { Joins result truth at first rest }
{
    if first.homes.same_homes(&rest.homes) {
        return Ok(Piece {
            code: choice(
                alloc,
                at,
                truth,
                first.code.as_slice(),
                rest.code.as_slice(),
            )?,
            homes: first.homes,
        });
    }
    Err(Refusal::Fault(Fault::NotTaken))
}

/// What code becomes, from a place on, where values wait in these homes.
#[cycle(flat)]
pub fn flat(
    alloc: Global,
    layout: &Layout,
    room: Room,
    at: u16,
    code: &Code,
    homes: Homes,
) -> Result<Piece, Refusal<Fault>>
    requires { room.locals + room.temps ≤ 252 }
    ensures { Lays result at (flat layout.now room (code_of code.now) homes) }
{
    match code {
        Code::Row(codes) => row(alloc, layout, room, at, codes.as_slice(), homes),
        Code::Do(step) => {
            let first = settle(alloc, room, at, homes)?;
            let rest_at = place_behind(at, first.code.len())?;
            let rest = stepped(alloc, layout, room, rest_at, *step, first.homes)?;
            Ok(behind(first.code, rest)?)
        }
        Code::If(first, rest) => chosen(alloc, layout, room, at, first, rest, homes),
        Code::Arms(all, last) => arms(alloc, layout, room, at, all.as_slice(), last, homes),
        Code::Arm(condition, block) => arm(alloc, layout, room, at, condition, block, homes),
        Code::Loop(condition, body, next) => {
            if homes.is_empty() {
                return repeated(alloc, layout, room, at, condition, body, next);
            }
            Err(Refusal::Fault(Fault::NotTaken))
        }
        Code::Break => {
            if homes.is_empty() {
                return Ok(one(alloc, Open::Break, homes)?);
            }
            Err(Refusal::Fault(Fault::NotTaken))
        }
        Code::Continue => {
            if homes.is_empty() {
                return Ok(one(alloc, Open::Continue, homes)?);
            }
            Err(Refusal::Fault(Fault::NotTaken))
        }
        Code::Return => {
            let first = settle(alloc, room, at, homes)?;
            let rest_at = place_behind(at, first.code.len())?;
            let rest = give_back(alloc, room, rest_at, first.homes)?;
            Ok(behind(first.code, rest)?)
        }
    }
}

// The same, and then the newest value is brought to the temporary of its height.
#[cycle(flat)]
fn landed(
    alloc: Global,
    layout: &Layout,
    room: Room,
    at: u16,
    code: &Code,
    homes: Homes,
) -> Result<Piece, Refusal<Fault>>
    requires { room.locals + room.temps ≤ 252 }
    ensures { Lays result at (landed room (flat layout.now room (code_of code.now) homes)) }
{
    let first = flat(alloc, layout, room, at, code, homes)?;
    let rest_at = place_behind(at, first.code.len())?;
    let rest = landing(alloc, room, rest_at, first.homes)?;
    Ok(behind(first.code, rest)?)
}

/// A choice by the truth value that waits, as `flat` of an `if`.
#[cycle(flat)]
pub fn chosen(
    alloc: Global,
    layout: &Layout,
    room: Room,
    at: u16,
    first: &Code,
    rest: &Code,
    homes: Homes,
) -> Result<Piece, Refusal<Fault>>
    requires { room.locals + room.temps ≤ 252 }
    ensures { Lays result at (flat layout.now room (If (code_of first.now) (code_of rest.now)) homes) }
{
    let mut homes = homes;
    match take_truth(&mut homes) {
        None => Err(Refusal::Fault(Fault::NotTaken)),
        Some(truth) => {
            let first_at = place_behind(at, 1)?;
            let first = landed(alloc, layout, room, first_at, first, homes.copy(alloc)?)?;
            let rest_at = rest_place(at, first.code.len())?;
            let rest = landed(alloc, layout, room, rest_at, rest, homes)?;
            join(alloc, at, truth, first, rest)
        }
    }
}

// A loop, where nothing waits.
#[cycle(flat)]
fn repeated(
    alloc: Global,
    layout: &Layout,
    room: Room,
    at: u16,
    condition: &Code,
    body: &Code,
    next: &Code,
) -> Result<Piece, Refusal<Fault>>
    requires { room.locals + room.temps ≤ 252 }
    ensures { Lays result at (repeated (flat layout.now room (code_of condition.now) empty) (flat layout.now room (code_of body.now) empty)
        (flat layout.now room (code_of next.now) empty)) }
{
    let before = flat(alloc, layout, room, at, condition, Homes::new(alloc))?;
    let mut homes = before.homes;
    match take_truth(&mut homes) {
        None => Err(Refusal::Fault(Fault::NotTaken)),
        Some(truth) => {
            if !homes.is_empty() {
                return Err(Refusal::Fault(Fault::NotTaken));
            }
            repeated_parts(alloc, layout, room, at, before.code, truth, body, next)
        }
    }
}

// A loop's body, and what is done behind it, behind what is done before its test.
#[cycle(flat)]
fn repeated_parts(
    alloc: Global,
    layout: &Layout,
    room: Room,
    at: u16,
    before: Row<Open>,
    truth: Truth,
    body: &Code,
    next: &Code,
) -> Result<Piece, Refusal<Fault>>
    requires { room.locals + room.temps ≤ 252 }
    ensures { (b : Block) → before ≡ open_code b at → Lays result at (repeated_body b truth (flat layout.now room (code_of body.now) empty)
        (flat layout.now room (code_of next.now) empty)) }
{
    let test_at = place_behind(at, before.len())?;
    let body_at = place_behind(test_at, 1)?;
    let body = flat(alloc, layout, room, body_at, body, Homes::new(alloc))?;
    if !body.homes.is_empty() {
        return Err(Refusal::Fault(Fault::NotTaken));
    }
    let next_at = place_behind(body_at, body.code.len())?;
    let next = flat(alloc, layout, room, next_at, next, Homes::new(alloc))?;
    if !next.homes.is_empty() {
        return Err(Refusal::Fault(Fault::NotTaken));
    }
    let code = repetition(
        at,
        before,
        truth,
        body.code.as_slice(),
        next.code.as_slice(),
    )?;
    Ok(Piece {
        code,
        homes: Homes::new(alloc),
    })
}

// One code behind another.
#[cycle(flat)]
fn row(
    alloc: Global,
    layout: &Layout,
    room: Room,
    at: u16,
    codes: &[Code],
    homes: Homes,
) -> Result<Piece, Refusal<Fault>>
    requires { room.locals + room.temps ≤ 252 }
    ensures { Lays result at (flat layout.now room (list_of codes.now) homes) }
{
    let mut code = Row::new(alloc);
    let mut homes = homes;
    'parts: for part in codes {
        let part_at = place_behind(at, code.len())?;
        let piece = flat(alloc, layout, room, part_at, part, homes)?;
        code = append(code, piece.code.as_slice())?;
        homes = piece.homes;
    }
    Ok(Piece { code, homes })
}

// The arms of an `if`, and what is done where no condition holds.
#[cycle(flat)]
fn arms(
    alloc: Global,
    layout: &Layout,
    room: Room,
    at: u16,
    all: &[Code],
    last: &Code,
    homes: Homes,
) -> Result<Piece, Refusal<Fault>>
    requires { room.locals + room.temps ≤ 252 }
    ensures { Lays result at (flat layout.now room (arms_list all.now (code_of last.now)) homes) }
{
    match all {
        [] => flat(alloc, layout, room, at, last, homes),
        [code, more @ ..] => arm_first(alloc, layout, room, at, code, more, last, homes),
    }
}

// An arm, and the others behind it.
#[cycle(flat)]
fn arm_first(
    alloc: Global,
    layout: &Layout,
    room: Room,
    at: u16,
    code: &Code,
    more: &[Code],
    last: &Code,
    homes: Homes,
) -> Result<Piece, Refusal<Fault>>
    requires { room.locals + room.temps ≤ 252 }
    ensures { Lays result at (flat layout.now room (arm_then code.now (arms_list more.now (code_of last.now))) homes) }
{
    match code {
        Code::Arm(condition, block) => {
            arm_more(alloc, layout, room, at, condition, block, more, last, homes)
        }
        _ => code_and_arms(alloc, layout, room, at, code, more, last, homes),
    }
}

// An arm by its condition and its block, and the others behind it.
#[cycle(flat)]
fn arm_more(
    alloc: Global,
    layout: &Layout,
    room: Room,
    at: u16,
    condition: &Code,
    block: &Code,
    more: &[Code],
    last: &Code,
    homes: Homes,
) -> Result<Piece, Refusal<Fault>>
    requires { room.locals + room.temps ≤ 252 }
    ensures { Lays result at (flat layout.now room (Then (code_of condition.now) (If (code_of block.now) (arms_list more.now (code_of last.now)))) homes) }
{
    let first = flat(alloc, layout, room, at, condition, homes)?;
    let rest_at = place_behind(at, first.code.len())?;
    let rest = arm_or(alloc, layout, room, rest_at, block, more, last, first.homes)?;
    Ok(behind(first.code, rest)?)
}

// Code that is no arm, and the arms behind it.
#[cycle(flat)]
fn code_and_arms(
    alloc: Global,
    layout: &Layout,
    room: Room,
    at: u16,
    code: &Code,
    more: &[Code],
    last: &Code,
    homes: Homes,
) -> Result<Piece, Refusal<Fault>>
    requires { room.locals + room.temps ≤ 252 }
    ensures { Lays result at (flat layout.now room (Then (code_of code.now) (arms_list more.now (code_of last.now))) homes) }
{
    let first = flat(alloc, layout, room, at, code, homes)?;
    let rest_at = place_behind(at, first.code.len())?;
    let rest = arms(alloc, layout, room, rest_at, more, last, first.homes)?;
    Ok(behind(first.code, rest)?)
}

// The other arms, and then the newest value is brought to the temporary of its height.
#[cycle(flat)]
fn landed_arms(
    alloc: Global,
    layout: &Layout,
    room: Room,
    at: u16,
    all: &[Code],
    last: &Code,
    homes: Homes,
) -> Result<Piece, Refusal<Fault>>
    requires { room.locals + room.temps ≤ 252 }
    ensures { Lays result at (landed room (flat layout.now room (arms_list all.now (code_of last.now)) homes)) }
{
    let first = arms(alloc, layout, room, at, all, last, homes)?;
    let rest_at = place_behind(at, first.code.len())?;
    let rest = landing(alloc, room, rest_at, first.homes)?;
    Ok(behind(first.code, rest)?)
}

/// An arm's block, or the other arms, by the truth value that waits.
#[cycle(flat)]
pub fn arm_or(
    alloc: Global,
    layout: &Layout,
    room: Room,
    at: u16,
    block: &Code,
    more: &[Code],
    last: &Code,
    homes: Homes,
) -> Result<Piece, Refusal<Fault>>
    requires { room.locals + room.temps ≤ 252 }
    ensures { Lays result at (flat layout.now room (If (code_of block.now) (arms_list more.now (code_of last.now))) homes) }
{
    let mut homes = homes;
    match take_truth(&mut homes) {
        None => Err(Refusal::Fault(Fault::NotTaken)),
        Some(truth) => {
            let first_at = place_behind(at, 1)?;
            let first = landed(alloc, layout, room, first_at, block, homes.copy(alloc)?)?;
            let rest_at = rest_place(at, first.code.len())?;
            let rest = landed_arms(alloc, layout, room, rest_at, more, last, homes)?;
            join(alloc, at, truth, first, rest)
        }
    }
}

// An arm alone.
#[cycle(flat)]
fn arm(
    alloc: Global,
    layout: &Layout,
    room: Room,
    at: u16,
    condition: &Code,
    block: &Code,
    homes: Homes,
) -> Result<Piece, Refusal<Fault>>
    requires { room.locals + room.temps ≤ 252 }
    ensures { Lays result at (flat layout.now room (Then (code_of condition.now) (If (code_of block.now) Nothing)) homes) }
{
    let first = flat(alloc, layout, room, at, condition, homes)?;
    let rest_at = place_behind(at, first.code.len())?;
    let rest = arm_or_nothing(alloc, layout, room, rest_at, block, first.homes)?;
    Ok(behind(first.code, rest)?)
}

/// An arm's block, or nothing, by the truth value that waits.
#[cycle(flat)]
pub fn arm_or_nothing(
    alloc: Global,
    layout: &Layout,
    room: Room,
    at: u16,
    block: &Code,
    homes: Homes,
) -> Result<Piece, Refusal<Fault>>
    requires { room.locals + room.temps ≤ 252 }
    ensures { Lays result at (flat layout.now room (If (code_of block.now) Nothing) homes) }
{
    let mut homes = homes;
    match take_truth(&mut homes) {
        None => Err(Refusal::Fault(Fault::NotTaken)),
        Some(truth) => {
            let first_at = place_behind(at, 1)?;
            let first = landed(alloc, layout, room, first_at, block, homes.copy(alloc)?)?;
            let rest_at = rest_place(at, first.code.len())?;
            let rest = landed_nothing(alloc, room, rest_at, homes)?;
            join(alloc, at, truth, first, rest)
        }
    }
}
