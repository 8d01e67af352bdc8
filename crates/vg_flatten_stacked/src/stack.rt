// Code to pieces, where the oldest values that wait are pushed.
ghost use Rattle.std.specs.Prelude.{◌≡◌, ◌+◌, ◌≤◌, length};
ghost use Rattle.vg_meaning.specs.Code.{Nothing, Then, If};
ghost use Rattle.vg_firm.specs.Held.{code_of, list_of};
ghost use Rattle.vg_flatten_shapes.specs.Shapes.{empty};
ghost use Rattle.vg_flatten_shapes.specs.Blocks.{Block, open_code};
ghost use Rattle.vg_flatten_control.specs.Flat.{repeated_body, repeated};
ghost use Rattle.vg_flatten_shapes.specs.Made.{after, tested};
ghost use Rattle.vg_flatten_control.specs.Weights.{arms_list, arm_then};
ghost use Rattle.vg_flatten_shapes.specs.Laying.{Lays};
ghost use Rattle.vg_flatten_pushed.specs.Pushed.{with_newest, level, raised};
ghost use Rattle.vg_flatten_pushed.specs.Stacked.{stacked, ways, by_pushed};

use crate::above::{arm_or_above, arm_or_nothing_above, chosen_above};
use std::alloc::Global;
use vg_base::{Refusal, Row};
use vg_firm::Code;
use vg_flatten_control::flat::{give_back, join, repetition, rest_place, take_truth};
use vg_flatten_pushed::{all_pushed, done, level, newest, raise};
use vg_flatten_shapes::{
    Fault, Homes, Layout, Open, Piece, Room, Truth, append, behind, one, place_behind,
};

/// What code becomes, from a place on, where the oldest values that wait are pushed, `most` of them at most. `NotTaken` where it takes more
/// than there are, or nothing waits where something must, or something where nothing may, or where a choice by a newer value has ways that
/// loop, leave or take a pushed value; `TooHigh` where a newer value has no temporary, or a step that takes a pushed value takes more than
/// there are temporaries but two; `TooLong` where an instruction would have one of the last places.
#[cycle(stacked)]
pub fn stacked(
    alloc: Global,
    layout: &Layout,
    room: Room,
    most: u16,
    at: u16,
    code: &Code,
    homes: Homes,
) -> Result<Piece, Refusal<Fault>>
    requires { room.locals + room.temps ≤ 252 }
    ensures { Lays result at (stacked layout.now room most (code_of code.now) homes) }
{
    match code {
        Code::Row(codes) => row(alloc, layout, room, most, at, codes.as_slice(), homes),
        Code::Do(step) => done(alloc, layout, room, most, at, *step, homes),
        Code::If(first, rest) => chosen(alloc, layout, room, most, at, first, rest, homes),
        Code::Arms(all, last) => arms(alloc, layout, room, most, at, all.as_slice(), last, homes),
        Code::Arm(condition, block) => arm(alloc, layout, room, most, at, condition, block, homes),
        Code::Loop(condition, body, next) => {
            if homes.is_empty() {
                return repeated(alloc, layout, room, most, at, condition, body, next);
            }
            Err(Refusal::Fault(Fault::NotTaken))
        }
        Code::Break => {
            if homes.is_empty() {
                return Ok(one(alloc, Open::Break, homes)?);
            }
            Err(Refusal::Fault(Fault::NotTaken))
        }
        Code::Continue => {
            if homes.is_empty() {
                return Ok(one(alloc, Open::Continue, homes)?);
            }
            Err(Refusal::Fault(Fault::NotTaken))
        }
        Code::Return => {
            let first = newest(alloc, room, most, at, homes)?;
            let rest_at = place_behind(at, first.code.len())?;
            let rest = give_back(alloc, room, rest_at, first.homes)?;
            Ok(behind(first.code, rest)?)
        }
    }
}

// A choice by the newest value.
#[cycle(stacked)]
fn chosen(
    alloc: Global,
    layout: &Layout,
    room: Room,
    most: u16,
    at: u16,
    first: &Code,
    rest: &Code,
    homes: Homes,
) -> Result<Piece, Refusal<Fault>>
    requires { room.locals + room.temps ≤ 252 }
    ensures { Lays result at (stacked layout.now room most (If (code_of first.now) (code_of rest.now)) homes) }
{
    if all_pushed(most, &homes) {
        return chosen_pushed(alloc, layout, room, most, at, first, rest, homes);
    }
    chosen_above(alloc, layout, room, most, at, first, rest, homes)
}

// A choice by a pushed value.
#[cycle(stacked)]
fn chosen_pushed(
    alloc: Global,
    layout: &Layout,
    room: Room,
    most: u16,
    at: u16,
    first: &Code,
    rest: &Code,
    homes: Homes,
) -> Result<Piece, Refusal<Fault>>
    requires { room.locals + room.temps ≤ 252 }
    ensures { Lays result at (by_pushed room most (stacked layout.now room most (code_of first.now)) (stacked layout.now room most (code_of rest.now)) homes) }
{
    let top = newest(alloc, room, most, at, homes)?;
    let ways_at = place_behind(at, top.code.len())?;
    let ways = raised_way(alloc, layout, room, most, ways_at, first, rest, top.homes)?;
    Ok(behind(top.code, ways)?)
}

// A choice by the value that was popped.
#[cycle(stacked)]
fn by_way(
    alloc: Global,
    layout: &Layout,
    room: Room,
    most: u16,
    at: u16,
    first: &Code,
    rest: &Code,
    homes: Homes,
) -> Result<Piece, Refusal<Fault>>
    requires { room.locals + room.temps ≤ 252 }
    ensures { Lays result at (ways room most (tested homes) (stacked layout.now room most (code_of first.now))
        (stacked layout.now room most (code_of rest.now))) }
{
    let mut homes = homes;
    match take_truth(&mut homes) {
        None => Err(Refusal::Fault(Fault::NotTaken)),
        Some(truth) => {
            let below = homes.len();
            let first_at = place_behind(at, 1)?;
            let first = levelled(
                alloc,
                layout,
                room,
                most,
                first_at,
                first,
                below,
                homes.copy(alloc)?,
            )?;
            let rest_at = rest_place(at, first.code.len())?;
            let rest = levelled(alloc, layout, room, most, rest_at, rest, below, homes)?;
            join(alloc, at, truth, first, rest)
        }
    }
}

// The condition of a loop, whose value is popped.
#[cycle(stacked)]
fn condition_of(
    alloc: Global,
    layout: &Layout,
    room: Room,
    most: u16,
    at: u16,
    code: &Code,
) -> Result<Piece, Refusal<Fault>>
    requires { room.locals + room.temps ≤ 252 }
    ensures { Lays result at (after (stacked layout.now room most (code_of code.now) empty) (with_newest room most)) }
{
    let first = stacked(alloc, layout, room, most, at, code, Homes::new(alloc))?;
    let rest_at = place_behind(at, first.code.len())?;
    let rest = newest(alloc, room, most, rest_at, first.homes)?;
    Ok(behind(first.code, rest)?)
}

// A loop, where nothing waits.
#[cycle(stacked)]
fn repeated(
    alloc: Global,
    layout: &Layout,
    room: Room,
    most: u16,
    at: u16,
    condition: &Code,
    body: &Code,
    next: &Code,
) -> Result<Piece, Refusal<Fault>>
    requires { room.locals + room.temps ≤ 252 }
    ensures { Lays result at (repeated (after (stacked layout.now room most (code_of condition.now) empty) (with_newest room most))
        (stacked layout.now room most (code_of body.now) empty)
        (stacked layout.now room most (code_of next.now) empty)) }
{
    let before = condition_of(alloc, layout, room, most, at, condition)?;
    let mut homes = before.homes;
    match take_truth(&mut homes) {
        None => Err(Refusal::Fault(Fault::NotTaken)),
        Some(truth) => {
            if !homes.is_empty() {
                return Err(Refusal::Fault(Fault::NotTaken));
            }
            repeated_parts(
                alloc,
                layout,
                room,
                most,
                at,
                before.code,
                truth,
                body,
                next,
            )
        }
    }
}

// A loop's body, and what is done behind it, behind what is done before its test.
#[cycle(stacked)]
fn repeated_parts(
    alloc: Global,
    layout: &Layout,
    room: Room,
    most: u16,
    at: u16,
    before: Row<Open>,
    truth: Truth,
    body: &Code,
    next: &Code,
) -> Result<Piece, Refusal<Fault>>
    requires { room.locals + room.temps ≤ 252 }
    ensures { (b : Block) → before ≡ open_code b at → Lays result at (repeated_body b truth (stacked layout.now room most (code_of body.now) empty)
        (stacked layout.now room most (code_of next.now) empty)) }
{
    let test_at = place_behind(at, before.len())?;
    let body_at = place_behind(test_at, 1)?;
    let body = stacked(alloc, layout, room, most, body_at, body, Homes::new(alloc))?;
    if !body.homes.is_empty() {
        return Err(Refusal::Fault(Fault::NotTaken));
    }
    let next_at = place_behind(body_at, body.code.len())?;
    let next = stacked(alloc, layout, room, most, next_at, next, Homes::new(alloc))?;
    if !next.homes.is_empty() {
        return Err(Refusal::Fault(Fault::NotTaken));
    }
    let code = repetition(
        at,
        before,
        truth,
        body.code.as_slice(),
        next.code.as_slice(),
    )?;
    Ok(Piece {
        code,
        homes: Homes::new(alloc),
    })
}

// One code behind another.
#[cycle(stacked)]
fn row(
    alloc: Global,
    layout: &Layout,
    room: Room,
    most: u16,
    at: u16,
    codes: &[Code],
    homes: Homes,
) -> Result<Piece, Refusal<Fault>>
    requires { room.locals + room.temps ≤ 252 }
    ensures { Lays result at (stacked layout.now room most (list_of codes.now) homes) }
{
    let mut code = Row::new(alloc);
    let mut homes = homes;
    'parts: for part in codes {
        let part_at = place_behind(at, code.len())?;
        let piece = stacked(alloc, layout, room, most, part_at, part, homes)?;
        code = append(code, piece.code.as_slice())?;
        homes = piece.homes;
    }
    Ok(Piece { code, homes })
}

// The arms of an `if`, and what is done where no condition holds.
#[cycle(stacked)]
fn arms(
    alloc: Global,
    layout: &Layout,
    room: Room,
    most: u16,
    at: u16,
    all: &[Code],
    last: &Code,
    homes: Homes,
) -> Result<Piece, Refusal<Fault>>
    requires { room.locals + room.temps ≤ 252 }
    ensures { Lays result at (stacked layout.now room most (arms_list all.now (code_of last.now)) homes) }
{
    match all {
        [] => stacked(alloc, layout, room, most, at, last, homes),
        [code, more @ ..] => arm_first(alloc, layout, room, most, at, code, more, last, homes),
    }
}

// An arm, and the others behind it.
#[cycle(stacked)]
fn arm_first(
    alloc: Global,
    layout: &Layout,
    room: Room,
    most: u16,
    at: u16,
    code: &Code,
    more: &[Code],
    last: &Code,
    homes: Homes,
) -> Result<Piece, Refusal<Fault>>
    requires { room.locals + room.temps ≤ 252 }
    ensures { Lays result at (stacked layout.now room most (arm_then code.now (arms_list more.now (code_of last.now))) homes) }
{
    match code {
        Code::Arm(condition, block) => {
            arm_more(
                alloc, layout, room, most, at, condition, block, more, last, homes,
            )
        }
        _ => code_and_arms(alloc, layout, room, most, at, code, more, last, homes),
    }
}

// An arm by its condition and its block, and the others behind it.
#[cycle(stacked)]
fn arm_more(
    alloc: Global,
    layout: &Layout,
    room: Room,
    most: u16,
    at: u16,
    condition: &Code,
    block: &Code,
    more: &[Code],
    last: &Code,
    homes: Homes,
) -> Result<Piece, Refusal<Fault>>
    requires { room.locals + room.temps ≤ 252 }
    ensures { Lays result at (stacked layout.now room most (Then (code_of condition.now) (If (code_of block.now) (arms_list more.now (code_of last.now))))
        homes) }
{
    let first = stacked(alloc, layout, room, most, at, condition, homes)?;
    let rest_at = place_behind(at, first.code.len())?;
    let rest = arm_or(
        alloc,
        layout,
        room,
        most,
        rest_at,
        block,
        more,
        last,
        first.homes,
    )?;
    Ok(behind(first.code, rest)?)
}

// Code that is no arm, and the arms behind it.
#[cycle(stacked)]
fn code_and_arms(
    alloc: Global,
    layout: &Layout,
    room: Room,
    most: u16,
    at: u16,
    code: &Code,
    more: &[Code],
    last: &Code,
    homes: Homes,
) -> Result<Piece, Refusal<Fault>>
    requires { room.locals + room.temps ≤ 252 }
    ensures { Lays result at (stacked layout.now room most (Then (code_of code.now) (arms_list more.now (code_of last.now))) homes) }
{
    let first = stacked(alloc, layout, room, most, at, code, homes)?;
    let rest_at = place_behind(at, first.code.len())?;
    let rest = arms(alloc, layout, room, most, rest_at, more, last, first.homes)?;
    Ok(behind(first.code, rest)?)
}

// An arm alone.
#[cycle(stacked)]
fn arm(
    alloc: Global,
    layout: &Layout,
    room: Room,
    most: u16,
    at: u16,
    condition: &Code,
    block: &Code,
    homes: Homes,
) -> Result<Piece, Refusal<Fault>>
    requires { room.locals + room.temps ≤ 252 }
    ensures { Lays result at (stacked layout.now room most (Then (code_of condition.now) (If (code_of block.now) Nothing)) homes) }
{
    let first = stacked(alloc, layout, room, most, at, condition, homes)?;
    let rest_at = place_behind(at, first.code.len())?;
    let rest = arm_or_nothing(alloc, layout, room, most, rest_at, block, first.homes)?;
    Ok(behind(first.code, rest)?)
}

// An arm's block, or the other arms.
#[cycle(stacked)]
fn arm_or(
    alloc: Global,
    layout: &Layout,
    room: Room,
    most: u16,
    at: u16,
    block: &Code,
    more: &[Code],
    last: &Code,
    homes: Homes,
) -> Result<Piece, Refusal<Fault>>
    requires { room.locals + room.temps ≤ 252 }
    ensures { Lays result at (stacked layout.now room most (If (code_of block.now) (arms_list more.now (code_of last.now))) homes) }
{
    if all_pushed(most, &homes) {
        return arm_or_pushed(alloc, layout, room, most, at, block, more, last, homes);
    }
    arm_or_above(alloc, layout, room, most, at, block, more, last, homes)
}

// The same by a pushed value.
#[cycle(stacked)]
fn arm_or_pushed(
    alloc: Global,
    layout: &Layout,
    room: Room,
    most: u16,
    at: u16,
    block: &Code,
    more: &[Code],
    last: &Code,
    homes: Homes,
) -> Result<Piece, Refusal<Fault>>
    requires { room.locals + room.temps ≤ 252 }
    ensures { Lays result at (by_pushed room most (stacked layout.now room most (code_of block.now))
        (stacked layout.now room most (arms_list more.now (code_of last.now))) homes) }
{
    let first = newest(alloc, room, most, at, homes)?;
    let rest_at = place_behind(at, first.code.len())?;
    let rest = arm_raised_way(
        alloc,
        layout,
        room,
        most,
        rest_at,
        block,
        more,
        last,
        first.homes,
    )?;
    Ok(behind(first.code, rest)?)
}

// The same by the value that was popped.
#[cycle(stacked)]
fn arm_by_way(
    alloc: Global,
    layout: &Layout,
    room: Room,
    most: u16,
    at: u16,
    block: &Code,
    more: &[Code],
    last: &Code,
    homes: Homes,
) -> Result<Piece, Refusal<Fault>>
    requires { room.locals + room.temps ≤ 252 }
    ensures { Lays result at (ways room most (tested homes) (stacked layout.now room most (code_of block.now))
        (stacked layout.now room most (arms_list more.now (code_of last.now)))) }
{
    let mut homes = homes;
    match take_truth(&mut homes) {
        None => Err(Refusal::Fault(Fault::NotTaken)),
        Some(truth) => {
            let below = homes.len();
            let first_at = place_behind(at, 1)?;
            let first = levelled(
                alloc,
                layout,
                room,
                most,
                first_at,
                block,
                below,
                homes.copy(alloc)?,
            )?;
            let rest_at = rest_place(at, first.code.len())?;
            let rest = levelled_arms(alloc, layout, room, most, rest_at, more, last, below, homes)?;
            join(alloc, at, truth, first, rest)
        }
    }
}

// An arm's block, or nothing.
#[cycle(stacked)]
fn arm_or_nothing(
    alloc: Global,
    layout: &Layout,
    room: Room,
    most: u16,
    at: u16,
    block: &Code,
    homes: Homes,
) -> Result<Piece, Refusal<Fault>>
    requires { room.locals + room.temps ≤ 252 }
    ensures { Lays result at (stacked layout.now room most (If (code_of block.now) Nothing) homes) }
{
    if all_pushed(most, &homes) {
        return arm_or_nothing_pushed(alloc, layout, room, most, at, block, homes);
    }
    arm_or_nothing_above(alloc, layout, room, most, at, block, homes)
}

// The same by a pushed value.
#[cycle(stacked)]
fn arm_or_nothing_pushed(
    alloc: Global,
    layout: &Layout,
    room: Room,
    most: u16,
    at: u16,
    block: &Code,
    homes: Homes,
) -> Result<Piece, Refusal<Fault>>
    requires { room.locals + room.temps ≤ 252 }
    ensures { Lays result at (by_pushed room most (stacked layout.now room most (code_of block.now)) (stacked layout.now room most Nothing) homes) }
{
    let first = newest(alloc, room, most, at, homes)?;
    let rest_at = place_behind(at, first.code.len())?;
    let rest = nothing_raised_way(alloc, layout, room, most, rest_at, block, first.homes)?;
    Ok(behind(first.code, rest)?)
}

// The same by the value that was popped.
#[cycle(stacked)]
fn nothing_by_way(
    alloc: Global,
    layout: &Layout,
    room: Room,
    most: u16,
    at: u16,
    block: &Code,
    homes: Homes,
) -> Result<Piece, Refusal<Fault>>
    requires { room.locals + room.temps ≤ 252 }
    ensures { Lays result at (ways room most (tested homes) (stacked layout.now room most (code_of block.now)) (stacked layout.now room most Nothing)) }
{
    let mut homes = homes;
    match take_truth(&mut homes) {
        None => Err(Refusal::Fault(Fault::NotTaken)),
        Some(truth) => {
            let below = homes.len();
            let first_at = place_behind(at, 1)?;
            let first = levelled(
                alloc,
                layout,
                room,
                most,
                first_at,
                block,
                below,
                homes.copy(alloc)?,
            )?;
            let rest_at = rest_place(at, first.code.len())?;
            let rest = levelled_nothing(alloc, layout, room, most, rest_at, below, homes)?;
            join(alloc, at, truth, first, rest)
        }
    }
}

// The same, and then the value of the way is pushed.
#[cycle(stacked)]
fn raised_way(
    alloc: Global,
    layout: &Layout,
    room: Room,
    most: u16,
    at: u16,
    first: &Code,
    rest: &Code,
    homes: Homes,
) -> Result<Piece, Refusal<Fault>>
    requires { room.locals + room.temps ≤ 252 }
    ensures { Lays result at (after (ways room most (tested homes) (stacked layout.now room most (code_of first.now))
        (stacked layout.now room most (code_of rest.now))) (raised (length homes.homes))) }
{
    let before = homes.len();
    let ways = by_way(alloc, layout, room, most, at, first, rest, homes)?;
    let push_at = place_behind(at, ways.code.len())?;
    let push = raise(alloc, push_at, before, ways.homes)?;
    Ok(behind(ways.code, push)?)
}

// The same, and then the value of the way is pushed.
#[cycle(stacked)]
fn arm_raised_way(
    alloc: Global,
    layout: &Layout,
    room: Room,
    most: u16,
    at: u16,
    block: &Code,
    more: &[Code],
    last: &Code,
    homes: Homes,
) -> Result<Piece, Refusal<Fault>>
    requires { room.locals + room.temps ≤ 252 }
    ensures { Lays result at (after (ways room most (tested homes) (stacked layout.now room most (code_of block.now))
        (stacked layout.now room most (arms_list more.now (code_of last.now)))) (raised (length homes.homes))) }
{
    let before = homes.len();
    let first = arm_by_way(alloc, layout, room, most, at, block, more, last, homes)?;
    let rest_at = place_behind(at, first.code.len())?;
    let rest = raise(alloc, rest_at, before, first.homes)?;
    Ok(behind(first.code, rest)?)
}

// The same, and then the value of the way is pushed.
#[cycle(stacked)]
fn nothing_raised_way(
    alloc: Global,
    layout: &Layout,
    room: Room,
    most: u16,
    at: u16,
    block: &Code,
    homes: Homes,
) -> Result<Piece, Refusal<Fault>>
    requires { room.locals + room.temps ≤ 252 }
    ensures { Lays result at (after (ways room most (tested homes) (stacked layout.now room most (code_of block.now)) (stacked layout.now room most Nothing))
        (raised (length homes.homes))) }
{
    let before = homes.len();
    let first = nothing_by_way(alloc, layout, room, most, at, block, homes)?;
    let rest_at = place_behind(at, first.code.len())?;
    let rest = raise(alloc, rest_at, before, first.homes)?;
    Ok(behind(first.code, rest)?)
}

// Code, and then as many values are pushed as before it.
#[cycle(stacked)]
fn levelled(
    alloc: Global,
    layout: &Layout,
    room: Room,
    most: u16,
    at: u16,
    code: &Code,
    below: usize,
    homes: Homes,
) -> Result<Piece, Refusal<Fault>>
    requires { room.locals + room.temps ≤ 252 }
    ensures { Lays result at (after (stacked layout.now room most (code_of code.now) homes) (level room most below)) }
{
    let first = stacked(alloc, layout, room, most, at, code, homes)?;
    let rest_at = place_behind(at, first.code.len())?;
    let rest = level(alloc, room, most, rest_at, below, first.homes)?;
    Ok(behind(first.code, rest)?)
}

// The same of arms.
#[cycle(stacked)]
fn levelled_arms(
    alloc: Global,
    layout: &Layout,
    room: Room,
    most: u16,
    at: u16,
    all: &[Code],
    last: &Code,
    below: usize,
    homes: Homes,
) -> Result<Piece, Refusal<Fault>>
    requires { room.locals + room.temps ≤ 252 }
    ensures { Lays result at (after (stacked layout.now room most (arms_list all.now (code_of last.now)) homes) (level room most below)) }
{
    let first = arms(alloc, layout, room, most, at, all, last, homes)?;
    let rest_at = place_behind(at, first.code.len())?;
    let rest = level(alloc, room, most, rest_at, below, first.homes)?;
    Ok(behind(first.code, rest)?)
}

/// The same of no code.
fn levelled_nothing(
    alloc: Global,
    layout: &Layout,
    room: Room,
    most: u16,
    at: u16,
    below: usize,
    homes: Homes,
) -> Result<Piece, Refusal<Fault>>
    requires { room.locals + room.temps ≤ 252 }
    ensures { Lays result at (after (stacked layout.now room most Nothing homes) (level room most below)) }
{
    level(alloc, room, most, at, below, homes)
}
