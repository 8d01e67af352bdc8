// Steps on the homes of the newer values, or between pops and a push.
ghost use Rattle.std.specs.Prelude.{◌≡◌, ◌+◌, ◌≤◌, ◌++◌, nat_le, length, drop, false, None, IfOk, OnOk, if◌then◌else◌};
ghost use Rattle.vg_meaning.specs.Code.{Do};
ghost use Rattle.vg_flatten_shapes.specs.Shapes.{only, is_none};
ghost use Rattle.vg_flatten_shapes.specs.Made.{after, settled};
ghost use Rattle.vg_flatten_steps.specs.Steps.{stepped};
ghost use Rattle.vg_flatten_shapes.specs.Laying.{Lays, IsPiece};
ghost use Rattle.vg_firm_typed.specs.Steps.{takes};
ghost use Rattle.vg_flatten_control.specs.Flat.{flat};
ghost use Rattle.vg_flatten_pushed.specs.Pushed.{newer, older, count_of, onto, pop_list, popped, lift_list, pushed_on, put_back, worked, drawn, step_on};
ghost use Rattle.vg_flatten_pushed.specs.Pushed.{is_above, crossed, done, topped, with_newest, level_as, level, raised};

use crate::parts::{all_pushed, onto, part};
use std::alloc::Global;
use vg_base::{NoMemory, Refusal, Row};
use vg_firm::{Code, Step};
use vg_flatten_control::flat::{flat, settle};
use vg_flatten_shapes::{
    Fault, Homes, Layout, Open, Piece, Room, Truth, behind, nothing, one, place_behind,
};
use vg_flatten_steps::stepped;
use vg_flatten_values::temp;
use vg_lin::{Instr, Operand, Plain};

/// How many of the newest values a step takes.
fn takes(step: Step) -> usize
    ensures { result ≡ takes step }
{
    match step {
        Step::SetLocal(_) => 1,
        Step::Forget => 1,
        Step::Operate(_) => 2,
        Step::Apply(_) => 1,
        Step::WriteDevice(_) => 1,
        Step::Store(_, _) => 1,
        Step::LoadAt(_, _, _) => 1,
        Step::StoreAt(_, _, _) => 2,
        Step::LoadNothing => 1,
        Step::StoreNothing => 2,
        Step::LoadItem(_) => 2,
        Step::StoreItem(_) => 3,
        Step::Length(_) => 1,
        Step::IsWithin(_, _) => 1,
        Step::StopUnlessWithin(_, _) => 1,
        Step::BindFor(_) => 1,
        Step::Call(_, count) => count as usize,
        Step::CallFor(_, count) => count as usize + 1,
        Step::CallValue(count) => count as usize + 1,
        _ => 0,
    }
}

/// The pops of so many values behind other code: the oldest of them goes into the local `first`, each newer one into the next.
fn push_pops(code: &mut Row<Open>, first: u8, count: u8) -> Result<(), NoMemory>
    requires { first + count ≤ 252 }
    ensures { OnOk result (code.new ≡ code.old ++ pop_list first count) }
{
    if count == 0 {
        return Ok(());
    }
    code.push(Open::Set(Instr::Plain(Plain::Pop(4, first + (count - 1)))))?;
    push_pops(code, first, count - 1)
}

/// The copies of values behind other code: the oldest of them goes into the local `first`, each newer one into the next.
fn push_lifts(code: &mut Row<Open>, first: u8, news: Homes) -> Result<(), NoMemory>
    requires room { first + length news.homes ≤ 252 }
    requires settled { news.truth ≡ None }
    ensures { OnOk result (code.new ≡ code.old ++ lift_list first news.homes) }
{
    let mut news = news;
    match news.pop() {
        None => Ok(()),
        Some(home) => {
            let to = first + news.len() as u8;
            code.push(Open::Set(Instr::Plain(Plain::Copy(to, home))))?;
            push_lifts(code, first, news)
        }
    }
}

/// So many of the newest values are forgotten.
fn forget_newest(homes: &mut Homes, count: u8)
    requires { homes.old.truth ≡ None }
    ensures { homes.new ≡ only (drop count homes.old.homes) }
{
    if count > 0 {
        homes.pop();
        forget_newest(homes, count - 1);
    }
}

/// Where so many values are behind their pops.
fn popped(alloc: Global, first: u8, count: u8) -> Result<Homes, NoMemory>
    requires { first + count ≤ 252 }
    ensures { IfOk result (λ s. s ≡ only (popped first count)) }
{
    if count == 0 {
        return Ok(Homes::new(alloc));
    }
    let mut homes = popped(alloc, first, count - 1)?;
    homes.push(Operand::Local(first + (count - 1)))?;
    Ok(homes)
}

/// The newer values make room for so many that are missing, and these are popped.
fn draw(
    alloc: Global,
    room: Room,
    at: u16,
    missing: u8,
    news: Homes,
    pushed: Homes,
) -> Result<Piece, NoMemory>
    requires room { room.locals + missing + length news.homes ≤ 252 }
    requires settled { news.truth ≡ None }
    requires pushed { pushed.truth ≡ None }
    ensures { IfOk result (λ p. IsPiece p at (drawn room missing news.homes pushed.homes)) }
{
    let mut code = Row::new(alloc);
    push_lifts(&mut code, room.locals + missing, news)?;
    push_pops(&mut code, room.locals, missing)?;
    let mut homes = pushed;
    forget_newest(&mut homes, missing);
    Ok(Piece { code, homes })
}

/// The value that a step leaves, if any, is pushed above the rest.
fn push_newest(alloc: Global, at: u16, homes: Homes, rest: Homes) -> Result<Piece, Refusal<Fault>>
    requires settled { homes.truth ≡ None }
    requires pushed { rest.truth ≡ None }
    ensures { Lays result at (pushed_on rest.homes homes.homes) }
{
    let mut homes = homes;
    let mut rest = rest;
    match homes.pop() {
        None => Ok(nothing(alloc, rest)),
        Some(home) => {
            if homes.is_empty() {
                rest.push(Operand::Known(0))?;
                return Ok(one(alloc, Open::Set(Instr::Plain(Plain::Push(4, home))), rest)?);
            }
            Err(Refusal::Fault(Fault::NotTaken))
        }
    }
}

/// The same, also where it is a test.
fn put_back(
    alloc: Global,
    room: Room,
    at: u16,
    homes: Homes,
    rest: Homes,
) -> Result<Piece, Refusal<Fault>>
    requires room { room.locals + room.temps ≤ 252 }
    requires pushed { rest.truth ≡ None }
    ensures { Lays result at (put_back room rest.homes homes) }
{
    let first = settle(alloc, room, at, homes)?;
    let push_at = place_behind(at, first.code.len())?;
    let last = push_newest(alloc, push_at, first.homes, rest)?;
    Ok(behind(first.code, last)?)
}

/// A step on its values, and then the push of what it leaves.
fn step_and_push(
    alloc: Global,
    layout: &Layout,
    room: Room,
    at: u16,
    step: Step,
    own: Homes,
    rest: Homes,
) -> Result<Piece, Refusal<Fault>>
    requires room { room.locals + room.temps ≤ 252 }
    requires settled { own.truth ≡ None }
    requires pushed { rest.truth ≡ None }
    ensures { Lays result at (after (stepped layout.now room step own.homes) (put_back room rest.homes)) }
{
    let first = stepped(alloc, layout, room, at, step, own)?;
    let push_at = place_behind(at, first.code.len())?;
    let last = put_back(alloc, room, push_at, first.homes, rest)?;
    Ok(behind(first.code, last)?)
}

/// A step on its values, which are in the first temporaries.
fn work(
    alloc: Global,
    layout: &Layout,
    room: Room,
    at: u16,
    step: Step,
    rest: Homes,
) -> Result<Piece, Refusal<Fault>>
    requires room { room.locals + room.temps ≤ 252 }
    requires few { takes step ≤ room.temps }
    requires pushed { rest.truth ≡ None }
    ensures { Lays result at (worked layout.now room step rest.homes) }
{
    let own = popped(alloc, room.locals, takes(step) as u8)?;
    step_and_push(alloc, layout, room, at, step, own, rest)
}

/// A step's values are brought to the first temporaries, and then the step.
fn draw_and_work(
    alloc: Global,
    layout: &Layout,
    room: Room,
    at: u16,
    step: Step,
    missing: u8,
    news: Homes,
    pushed: Homes,
) -> Result<Piece, Refusal<Fault>>
    requires room { room.locals + room.temps ≤ 252 }
    requires few { takes step ≤ room.temps }
    requires missing { missing + length news.homes ≤ room.temps }
    requires settled { news.truth ≡ None }
    requires pushed { pushed.truth ≡ None }
    ensures { Lays result at (after (drawn room missing news.homes pushed.homes) (λ s. worked layout.now room step s.homes)) }
{
    let first = draw(alloc, room, at, missing, news, pushed)?;
    let work_at = place_behind(at, first.code.len())?;
    let last = work(alloc, layout, room, work_at, step, first.homes)?;
    Ok(behind(first.code, last)?)
}

/// A step which takes the newer values, and pushed ones.
fn step_on(
    alloc: Global,
    layout: &Layout,
    room: Room,
    at: u16,
    step: Step,
    news: Homes,
    pushed: Homes,
) -> Result<Piece, Refusal<Fault>>
    requires room { room.locals + room.temps ≤ 252 }
    requires few { length news.homes ≤ takes step }
    requires settled { news.truth ≡ None }
    requires pushed { pushed.truth ≡ None }
    ensures { Lays result at (step_on layout.now room step news.homes pushed.homes) }
{
    let count = takes(step);
    let missing = count - news.len();
    if missing > pushed.len() {
        return Err(Refusal::Fault(Fault::NotTaken));
    }
    if count + 2 > room.temps as usize {
        return Err(Refusal::Fault(Fault::TooHigh));
    }
    draw_and_work(alloc, layout, room, at, step, missing as u8, news, pushed)
}

/// The same, also where the newest of the newer values is a test.
fn cross(
    alloc: Global,
    layout: &Layout,
    room: Room,
    at: u16,
    step: Step,
    above: Homes,
    below: Homes,
) -> Result<Piece, Refusal<Fault>>
    requires room { room.locals + room.temps ≤ 252 }
    requires few { count_of above ≤ takes step }
    requires pushed { below.truth ≡ None }
    ensures { Lays result at (after (settled room above) (λ s. step_on layout.now room step s.homes below.homes)) }
{
    let first = settle(alloc, room, at, above)?;
    let step_at = place_behind(at, first.code.len())?;
    let last = step_on(alloc, layout, room, step_at, step, first.homes, below)?;
    Ok(behind(first.code, last)?)
}

/// A step that takes pushed values, or leaves a value that is to be pushed.
#[tactic(auto, using(crate::proofs::Parting::few_newer))]
fn crossed(
    alloc: Global,
    layout: &Layout,
    room: Room,
    most: u16,
    at: u16,
    step: Step,
    homes: Homes,
) -> Result<Piece, Refusal<Fault>>
    requires room { room.locals + room.temps ≤ 252 }
    requires crosses { is_above most step homes ≡ false }
    ensures { Lays result at (crossed layout.now room most step homes) }
{
    let parts = part(alloc, most, homes)?;
    cross(alloc, layout, room, at, step, parts.above, parts.below)
}

/// A step on the newer values alone, above the pushed ones.
fn above(
    alloc: Global,
    layout: &Layout,
    room: Room,
    most: u16,
    at: u16,
    step: Step,
    homes: Homes,
) -> Result<Piece, Refusal<Fault>>
    requires { room.locals + room.temps ≤ 252 }
    ensures { Lays result at (onto (older most homes) (flat layout.now room (Do step) (newer most homes))) }
{
    let parts = part(alloc, most, homes)?;
    let made = flat(alloc, layout, room, at, &Code::Do(step), parts.above);
    onto(alloc, made, parts.below)
}

/// Whether a step takes no more values than these, with the one that is a test.
fn takes_these(step: Step, truth: Option<Truth>, count: usize) -> bool
    ensures { result ≡ nat_le (takes step) (count + (if is_none truth then 0 else 1)) }
{
    let taken = takes(step);
    match truth {
        None => taken <= count,
        Some(_) => taken == 0 || taken - 1 <= count,
    }
}

/// Whether a step takes newer values alone, and what it leaves is not to be pushed.
#[tactic(auto, using(crate::proofs::Parting::above_is, crate::proofs::Parting::not_above))]
fn is_above(most: u16, step: Step, homes: &Homes) -> bool
    ensures { result ≡ is_above most step homes.now }
{
    let count = homes.len();
    if count < most as usize {
        return false;
    }
    takes_these(step, homes.truth(), count - most as usize)
}

/// What a step becomes, from a place on, where the oldest values that wait are pushed, `most` of them at most. `NotTaken` where it takes
/// more than there are, and `TooHigh` where a newer value has no temporary, or a step that takes a pushed value takes more than there are
/// temporaries but two.
pub fn done(
    alloc: Global,
    layout: &Layout,
    room: Room,
    most: u16,
    at: u16,
    step: Step,
    homes: Homes,
) -> Result<Piece, Refusal<Fault>>
    requires { room.locals + room.temps ≤ 252 }
    ensures { Lays result at (done layout.now room most step homes) }
{
    if is_above(most, step, &homes) {
        return above(alloc, layout, room, most, at, step, homes);
    }
    crossed(alloc, layout, room, most, at, step, homes)
}

/// The newest value is popped into the first temporary.
fn top(alloc: Global, room: Room, at: u16, homes: Homes) -> Result<Piece, Refusal<Fault>>
    requires { room.locals + room.temps ≤ 252 }
    ensures { Lays result at (topped room homes.homes) }
{
    let mut homes = homes;
    homes.forget_truth();
    match homes.pop() {
        None => Err(Refusal::Fault(Fault::NotTaken)),
        Some(_) => {
            let none = Homes::new(alloc);
            let to = temp(room, &none)?;
            homes.push(Operand::Local(to))?;
            Ok(one(alloc, Open::Set(Instr::Plain(Plain::Pop(4, to))), homes)?)
        }
    }
}

/// The newest value is popped into the first temporary. `NotTaken` where none waits, or it is not pushed, and `TooHigh` where there is no
/// temporary.
pub fn newest(
    alloc: Global,
    room: Room,
    most: u16,
    at: u16,
    homes: Homes,
) -> Result<Piece, Refusal<Fault>>
    requires { room.locals + room.temps ≤ 252 }
    ensures { Lays result at (with_newest room most homes) }
{
    if all_pushed(most, &homes) {
        return top(alloc, room, at, homes);
    }
    Err(Refusal::Fault(Fault::NotTaken))
}

/// Where each value is pushed, the newest one above so many is popped into the first temporary, if there is one more.
fn level_as(
    alloc: Global,
    room: Room,
    at: u16,
    below: usize,
    homes: Homes,
) -> Result<Piece, Refusal<Fault>>
    requires { room.locals + room.temps ≤ 252 }
    ensures { Lays result at (level_as room below homes) }
{
    let mut homes = homes;
    homes.forget_truth();
    if homes.len() == below {
        return Ok(nothing(alloc, homes));
    }
    match homes.pop() {
        None => Err(Refusal::Fault(Fault::NotTaken)),
        Some(_) => {
            if homes.len() == below {
                let none = Homes::new(alloc);
                let to = temp(room, &none)?;
                homes.push(Operand::Local(to))?;
                return Ok(one(alloc, Open::Set(Instr::Plain(Plain::Pop(4, to))), homes)?);
            }
            Err(Refusal::Fault(Fault::NotTaken))
        }
    }
}

/// The newest value above so many is popped into the first temporary, if there is one more; `NotTaken` where there are more than that, or
/// fewer, or one is not pushed, and `TooHigh` where there is no temporary.
pub fn level(
    alloc: Global,
    room: Room,
    most: u16,
    at: u16,
    below: usize,
    homes: Homes,
) -> Result<Piece, Refusal<Fault>>
    requires { room.locals + room.temps ≤ 252 }
    ensures { Lays result at (level room most below homes) }
{
    if all_pushed(most, &homes) {
        return level_as(alloc, room, at, below, homes);
    }
    Err(Refusal::Fault(Fault::NotTaken))
}

/// The newest value is pushed, where as many wait as before, or more.
pub fn raise(alloc: Global, at: u16, before: usize, homes: Homes) -> Result<Piece, Refusal<Fault>>
    ensures { Lays result at (raised before homes) }
{
    let mut homes = homes;
    homes.forget_truth();
    if homes.len() < before {
        return Ok(nothing(alloc, homes));
    }
    match homes.pop() {
        None => Err(Refusal::Fault(Fault::NotTaken)),
        Some(home) => {
            homes.push(Operand::Known(0))?;
            Ok(one(alloc, Open::Set(Instr::Plain(Plain::Push(4, home))), homes)?)
        }
    }
}
