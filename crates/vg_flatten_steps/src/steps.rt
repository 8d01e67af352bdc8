// What steps become.
ghost use Rattle.std.specs.Prelude.{◌≡◌, ◌+◌, ◌≤◌, None};
ghost use Rattle.vg_flatten_steps.specs.Steps.{stepped};
ghost use Rattle.vg_flatten_steps.specs.Locals.{at_local, get_receiver, put_in_local, get_local, set_local, read, written, forgotten};
ghost use Rattle.vg_flatten_shapes.specs.Laying.{Lays};

use crate::calls::{called, called_for, called_value};
use crate::delegates::{bound, bound_for};
use crate::objects::{cast_to, is_one_of};
use std::alloc::Global;
use vg_base::Refusal;
use vg_firm::Step;
use vg_flatten_places::{
    length, load, load_at, load_item, load_no_field, store, store_item, store_no_field, store_to,
};
use vg_flatten_shapes::{Fault, Homes, Layout, Open, Piece, Room, nothing, one};
use vg_flatten_values::{applied, operated, put_home, put_into, temp};
use vg_lin::{Instr, Operand, Plain};

/// What a step becomes, where no truth value waits as a test.
pub fn stepped(
    alloc: Global,
    layout: &Layout,
    room: Room,
    at: u16,
    step: Step,
    homes: Homes,
) -> Result<Piece, Refusal<Fault>>
    requires room { room.locals + room.temps ≤ 252 }
    requires settled { homes.truth ≡ None }
    ensures { Lays result at (stepped layout.now room step homes.homes) }
{
    match step {
        Step::Number(v) => Ok(put_home(alloc, Operand::Known(v), homes)?),
        Step::This => get_receiver(alloc, room, at, homes),
        Step::Local(i) => get_local(alloc, room, at, i, homes),
        Step::SetLocal(i) => set_local(alloc, room, at, i, homes),
        Step::Forget => forgotten(alloc, at, homes),
        Step::Operate(op) => operated(alloc, room, at, op, homes),
        Step::Apply(op) => applied(alloc, room, at, op, homes),
        Step::ReadDevice(address) => read(alloc, room, at, address, homes),
        Step::WriteDevice(address) => written(alloc, at, address, homes),
        Step::Call(q, count) => called(alloc, layout, room, at, q, count, homes),
        Step::CallFor(dispatch, count) => { called_for(alloc, room, at, dispatch, count, homes) }
        Step::CallValue(count) => called_value(alloc, room, at, count, homes),
        Step::Bind(q) => bound(alloc, room, at, q, homes),
        Step::BindFor(dispatch) => bound_for(alloc, room, at, dispatch, homes),
        Step::Idle => Ok(one(alloc, Open::Set(Instr::Idle), homes)?),
        Step::Load(home, column) => load(alloc, layout, room, at, home, column, homes),
        Step::LoadAt(home, column, first) => {
            load_at(alloc, layout, room, at, home, column, first, homes)
        }
        Step::Store(column, width) => store(alloc, layout, at, column, width, homes),
        Step::StoreAt(column, first, width) => {
            store_to(alloc, layout, room, at, column, first, width, homes)
        }
        Step::LoadItem(elements) => load_item(alloc, layout, room, at, elements, homes),
        Step::StoreItem(elements) => store_item(alloc, layout, room, at, elements, homes),
        Step::Length(table) => length(alloc, layout, room, at, table, homes),
        Step::LoadNothing => load_no_field(alloc, room, at, homes),
        Step::StoreNothing => store_no_field(alloc, room, at, homes),
        Step::IsWithin(first, count) => is_one_of(alloc, room, at, first, count, homes),
        Step::StopUnlessWithin(first, count) => cast_to(alloc, room, at, first, count, homes),
    }
}

fn at_local(
    alloc: Global,
    room: Room,
    at: u16,
    local: u16,
    homes: Homes,
) -> Result<Piece, Refusal<Fault>>
    requires { homes.truth ≡ None }
    ensures { Lays result at (at_local room local homes.homes) }
{
    if local < room.locals as u16 {
        return Ok(put_home(alloc, Operand::Local(local as u8), homes)?);
    }
    Err(Refusal::Fault(Fault::NotTaken))
}

fn get_local(
    alloc: Global,
    room: Room,
    at: u16,
    i: u8,
    homes: Homes,
) -> Result<Piece, Refusal<Fault>>
    requires { homes.truth ≡ None }
    ensures { Lays result at (get_local room i homes.homes) }
{
    at_local(alloc, room, at, room.receiver as u16 + i as u16, homes)
}

/// The receiver is the first local, where there is one.
fn get_receiver(alloc: Global, room: Room, at: u16, homes: Homes) -> Result<Piece, Refusal<Fault>>
    requires { homes.truth ≡ None }
    ensures { Lays result at (get_receiver room homes.homes) }
{
    if room.receiver == 0 {
        return Ok(put_home(alloc, Operand::Known(0), homes)?);
    }
    at_local(alloc, room, at, 0, homes)
}

fn put_in_local(
    alloc: Global,
    room: Room,
    at: u16,
    local: u16,
    home: Operand,
    homes: Homes,
) -> Result<Piece, Refusal<Fault>>
    requires { homes.truth ≡ None }
    ensures { Lays result at (put_in_local room local home homes.homes) }
{
    if local < room.locals as u16 {
        let to = local as u8;
        if homes.is_free(to) {
            return Ok(one(alloc, Open::Set(Instr::Plain(Plain::Copy(to, home))), homes)?);
        }
    }
    Err(Refusal::Fault(Fault::NotTaken))
}

fn set_local(
    alloc: Global,
    room: Room,
    at: u16,
    i: u8,
    homes: Homes,
) -> Result<Piece, Refusal<Fault>>
    requires { homes.truth ≡ None }
    ensures { Lays result at (set_local room i homes.homes) }
{
    let mut homes = homes;
    match homes.pop() {
        Some(home) => {
            let local = room.receiver as u16 + i as u16;
            put_in_local(alloc, room, at, local, home, homes)
        }
        None => Err(Refusal::Fault(Fault::NotTaken)),
    }
}

fn forgotten(alloc: Global, at: u16, homes: Homes) -> Result<Piece, Refusal<Fault>>
    requires { homes.truth ≡ None }
    ensures { Lays result at (forgotten homes.homes) }
{
    let mut homes = homes;
    match homes.pop() {
        Some(_) => Ok(nothing(alloc, homes)),
        None => Err(Refusal::Fault(Fault::NotTaken)),
    }
}

fn read(
    alloc: Global,
    room: Room,
    at: u16,
    address: u8,
    homes: Homes,
) -> Result<Piece, Refusal<Fault>>
    requires room { room.locals + room.temps ≤ 252 }
    requires settled { homes.truth ≡ None }
    ensures { Lays result at (read room address homes.homes) }
{
    let to = temp(room, &homes)?;
    Ok(put_into(
        alloc,
        to,
        Instr::Plain(Plain::ReadDevice(to, address)),
        homes,
    )?)
}

fn written(alloc: Global, at: u16, address: u8, homes: Homes) -> Result<Piece, Refusal<Fault>>
    requires { homes.truth ≡ None }
    ensures { Lays result at (written address homes.homes) }
{
    let mut homes = homes;
    match homes.pop() {
        Some(home) => Ok(one(
            alloc,
            Open::Set(Instr::Plain(Plain::WriteDevice(address, home))),
            homes,
        )?),
        None => Err(Refusal::Fault(Fault::NotTaken)),
    }
}
