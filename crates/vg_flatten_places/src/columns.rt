// What loads from columns and tables, and stores to columns, become.
ghost use Rattle.std.specs.Prelude.{◌≡◌, ◌+◌, ◌≤◌, Some, None, slice_get};
ghost use Rattle.vg_flatten_shapes.specs.Blocks.{open_code};
ghost use Rattle.vg_flatten_shapes.specs.Laying.{Lays, LaysCode};
ghost use Rattle.vg_flatten_places.specs.Places.{is_width, load_from, multiplied, multiple, distance, fetched, fetched_from, load_placed, load_sole, load_entry, load_one, load_of, length_of, lone_of, known_length, array_length, places_in, memory_of};
ghost use Rattle.vg_flatten_places.specs.Places.{store_at, store_one, put_of, put_from, store_placed, put_sole, store_entry, store_of};

use crate::nothing::load_nothing;
use crate::nulls::null_check;
use std::alloc::Global;
use vg_base::{Refusal, Row};
use vg_firm::{ArrayPlace, Home};
use vg_flatten_shapes::{
    Fault, Homes, Layout, Open, Piece, Place, Room, Truth, append, one, place_behind, stop_where,
};
use vg_flatten_values::{is_zero, put_into, temp};
use vg_lin::{Address, Computation, Instr, Memory, Operand, Operator, Plain};

pub(crate) fn is_width(width: u8) -> bool
    ensures { result ≡ is_width width }
{
    0 < width && width < 5
}

pub(crate) fn load_from(memory: Memory, width: u8, to: u8, base: u16, index: Operand) -> Plain
    ensures { result ≡ load_from memory width to base index }
{
    Plain::Load(memory, width, to, Address { base, index })
}

/// The places of the columns of a home.
pub(crate) fn places_in(layout: &Layout, home: Home) -> &[Place]
    ensures { result.now ≡ places_in layout.now home }
{
    match home {
        Home::Ram => layout.ram.as_slice(),
        Home::Flash => layout.flash.as_slice(),
    }
}

/// The memory where they are.
pub(crate) fn memory_of(home: Home) -> Memory
    ensures { result ≡ memory_of home }
{
    match home {
        Home::Ram => Memory::Ram,
        Home::Flash => Memory::Flash,
    }
}

/// The low two bytes of a number, so many times.
pub(crate) fn multiplied(
    alloc: Global,
    at: u16,
    to: u8,
    by: u8,
    home: Operand,
) -> Result<Row<Open>, Refusal<Fault>>
    ensures { LaysCode result at (open_code (multiplied to by home) at) }
{
    let mut code = Row::new(alloc);
    if by == 1 {
        return Ok(code);
    }
    code.push(Open::Set(Instr::Plain(Plain::Compute(Computation {
        operator: Operator::Times,
        width: 2,
        to,
        left: home,
        right: Operand::Known(by as u32),
    }))))?;
    Ok(code)
}

pub(crate) fn multiple(to: u8, by: u8, home: Operand) -> Operand
    ensures { result ≡ multiple to by home }
{
    if by == 1 { home } else { Operand::Local(to) }
}

/// Behind the null check of a number, so many bytes: those at a base, so many times further as the number says.
#[tactic(auto, using(vg_flatten_shapes::proofs::Sizes::late))]
fn fetched(
    alloc: Global,
    room: Room,
    at: u16,
    memory: Memory,
    width: u8,
    by: u8,
    base: u16,
    home: Operand,
    homes: Homes,
) -> Result<Piece, Refusal<Fault>>
    requires room { room.locals + room.temps ≤ 252 }
    requires settled { homes.truth ≡ None }
    ensures { Lays result at (fetched room memory width by base home homes.homes) }
{
    let to = temp(room, &homes)?;
    let check = null_check(alloc, room, at, home)?;
    let inside = place_behind(at, check.len())?;
    let mut rest = multiplied(alloc, inside, to, by, home)?;
    let load = load_from(memory, width, to, base, multiple(to, by, home));
    rest.push(Open::Set(Instr::Plain(load)))?;
    let code = append(check, rest.as_slice())?;
    let mut homes = homes;
    homes.push(Operand::Local(to))?;
    Ok(Piece { code, homes })
}

fn load_one(
    alloc: Global,
    room: Room,
    at: u16,
    memory: Memory,
    place: Place,
    homes: Homes,
) -> Result<Piece, Refusal<Fault>>
    requires room { room.locals + room.temps ≤ 252 }
    requires settled { homes.truth ≡ None }
    ensures { Lays result at (load_one room memory (Some place) homes.homes) }
{
    if is_width(place.width) {
        let to = temp(room, &homes)?;
        let load = load_from(memory, place.width, to, place.address, Operand::Known(0));
        return Ok(put_into(alloc, to, Instr::Plain(load), homes)?);
    }
    Err(Refusal::Fault(Fault::NotTaken))
}

/// The one value of a column.
pub fn load(
    alloc: Global,
    layout: &Layout,
    room: Room,
    at: u16,
    home: Home,
    column: u16,
    homes: Homes,
) -> Result<Piece, Refusal<Fault>>
    requires room { room.locals + room.temps ≤ 252 }
    requires settled { homes.truth ≡ None }
    ensures { Lays result at (load_one room (memory_of home) (slice_get (places_in layout.now home) column) homes.homes) }
{
    match places_in(layout, home).get(column as usize) {
        Some(place) => load_one(alloc, room, at, memory_of(home), *place, homes),
        None => Err(Refusal::Fault(Fault::NotTaken)),
    }
}

/// How far a number is behind another.
pub fn distance(to: u8, first: u16, home: Operand) -> Plain
    ensures { result ≡ distance to first home }
{
    Plain::Compute(Computation {
        operator: Operator::Minus,
        width: 4,
        to,
        left: home,
        right: Operand::Known(first as u32),
    })
}

/// The same, where the number is counted from another one.
#[tactic(auto, using(vg_flatten_shapes::proofs::Sizes::late))]
fn fetched_from(
    alloc: Global,
    room: Room,
    at: u16,
    memory: Memory,
    first: u16,
    place: Place,
    home: Operand,
    homes: Homes,
) -> Result<Piece, Refusal<Fault>>
    requires room { room.locals + room.temps ≤ 252 }
    requires settled { homes.truth ≡ None }
    ensures { Lays result at (fetched_from room memory place.width first place.address home homes.homes) }
{
    let to = temp(room, &homes)?;
    let number = Operand::Local(to);
    let check = null_check(alloc, room, at, home)?;
    let distance_at = place_behind(at, check.len())?;
    let inside = place_behind(distance_at, 1)?;
    let mut rest = multiplied(alloc, inside, to, place.width, number)?;
    let index = multiple(to, place.width, number);
    let load = load_from(memory, place.width, to, place.address, index);
    rest.push(Open::Set(Instr::Plain(load)))?;
    let mut code = check;
    code.push(Open::Set(Instr::Plain(distance(to, first, home))))?;
    let code = append(code, rest.as_slice())?;
    let mut homes = homes;
    homes.push(Operand::Local(to))?;
    Ok(Piece { code, homes })
}

/// The value of an object at its place.
fn load_placed(
    alloc: Global,
    room: Room,
    at: u16,
    memory: Memory,
    first: u16,
    place: Place,
    home: Operand,
    homes: Homes,
) -> Result<Piece, Refusal<Fault>>
    requires room { room.locals + room.temps ≤ 252 }
    requires settled { homes.truth ≡ None }
    ensures { Lays result at (load_placed room memory place.width first place.address home homes.homes) }
{
    let before = place.width as u32 * first as u32;
    if before <= place.address as u32 {
        let width = place.width;
        let base = place.address - before as u16;
        return fetched(alloc, room, at, memory, width, width, base, home, homes);
    }
    fetched_from(alloc, room, at, memory, first, place, home, homes)
}

/// Behind the null check of a number, the bytes of the one entry of a column.
#[tactic(auto, using(vg_flatten_shapes::proofs::Sizes::late))]
fn load_sole(
    alloc: Global,
    room: Room,
    at: u16,
    memory: Memory,
    place: Place,
    home: Operand,
    homes: Homes,
) -> Result<Piece, Refusal<Fault>>
    requires room { room.locals + room.temps ≤ 252 }
    requires settled { homes.truth ≡ None }
    ensures { Lays result at (load_sole room memory place.width place.address home homes.homes) }
{
    let to = temp(room, &homes)?;
    let mut code = null_check(alloc, room, at, home)?;
    let load = load_from(memory, place.width, to, place.address, Operand::Known(0));
    code.push(Open::Set(Instr::Plain(load)))?;
    let mut homes = homes;
    homes.push(Operand::Local(to))?;
    Ok(Piece { code, homes })
}

/// The value of an object of a column, by whether the column has others.
fn load_entry(
    alloc: Global,
    room: Room,
    at: u16,
    memory: Memory,
    first: u16,
    place: Place,
    home: Operand,
    homes: Homes,
) -> Result<Piece, Refusal<Fault>>
    requires room { room.locals + room.temps ≤ 252 }
    requires settled { homes.truth ≡ None }
    ensures { Lays result at (load_entry room memory first place home homes.homes) }
{
    if place.count == 1 {
        return load_sole(alloc, room, at, memory, place, home, homes);
    }
    load_placed(alloc, room, at, memory, first, place, home, homes)
}

fn load_of(
    alloc: Global,
    room: Room,
    at: u16,
    memory: Memory,
    first: u16,
    place: Place,
    homes: Homes,
) -> Result<Piece, Refusal<Fault>>
    requires room { room.locals + room.temps ≤ 252 }
    requires settled { homes.truth ≡ None }
    ensures { Lays result at (load_of room memory first (Some place) homes.homes) }
{
    let mut homes = homes;
    match homes.pop() {
        Some(home) => {
            if is_width(place.width) {
                return load_entry(alloc, room, at, memory, first, place, home, homes);
            }
            Err(Refusal::Fault(Fault::NotTaken))
        }
        None => Err(Refusal::Fault(Fault::NotTaken)),
    }
}

/// The value of an object, whose column begins with that of the first.
pub fn load_at(
    alloc: Global,
    layout: &Layout,
    room: Room,
    at: u16,
    home: Home,
    column: u16,
    first: u16,
    homes: Homes,
) -> Result<Piece, Refusal<Fault>>
    requires room { room.locals + room.temps ≤ 252 }
    requires settled { homes.truth ≡ None }
    ensures { Lays result at (load_of room (memory_of home) first (slice_get (places_in layout.now home) column) homes.homes) }
{
    match places_in(layout, home).get(column as usize) {
        Some(place) => load_of(alloc, room, at, memory_of(home), first, *place, homes),
        None => Err(Refusal::Fault(Fault::NotTaken)),
    }
}

fn length_of(
    alloc: Global,
    room: Room,
    at: u16,
    table: u16,
    homes: Homes,
) -> Result<Piece, Refusal<Fault>>
    requires room { room.locals + room.temps ≤ 252 }
    requires settled { homes.truth ≡ None }
    ensures { Lays result at (length_of room (Some table) homes.homes) }
{
    let mut homes = homes;
    match homes.pop() {
        Some(home) => {
            if table >= 2 {
                return fetched(alloc, room, at, Memory::Flash, 2, 4, table - 2, home, homes);
            }
            Err(Refusal::Fault(Fault::NotTaken))
        }
        None => Err(Refusal::Fault(Fault::NotTaken)),
    }
}

/// The array of a table that has no other, where the layout says it.
pub(crate) fn lone_of(layout: &Layout, table: u16) -> Option<ArrayPlace>
    ensures { result ≡ lone_of layout.now table }
{
    match layout.lone_arrays.as_slice().get(table as usize) {
        Some(single) => *single,
        None => None,
    }
}

/// The length of such an array is known behind the null check.
#[tactic(auto, using(vg_flatten_shapes::proofs::Sizes::late))]
fn known_length(alloc: Global, at: u16, length: u16, homes: Homes) -> Result<Piece, Refusal<Fault>>
    requires { homes.truth ≡ None }
    ensures { Lays result at (known_length length homes.homes) }
{
    let mut homes = homes;
    match homes.pop() {
        Some(home) => {
            let code = stop_where(alloc, at, 1, Truth::Holds(is_zero(home)))?;
            homes.push(Operand::Known(length as u32))?;
            Ok(Piece { code, homes })
        }
        None => Err(Refusal::Fault(Fault::NotTaken)),
    }
}

fn length_by(
    alloc: Global,
    layout: &Layout,
    room: Room,
    at: u16,
    table: u16,
    homes: Homes,
) -> Result<Piece, Refusal<Fault>>
    requires room { room.locals + room.temps ≤ 252 }
    requires settled { homes.truth ≡ None }
    ensures { Lays result at (length_of room (slice_get layout.now.tables table) homes.homes) }
{
    match layout.tables.as_slice().get(table as usize) {
        Some(address) => length_of(alloc, room, at, *address, homes),
        None => load_nothing(alloc, at, homes),
    }
}

/// The length of an array, by the table of its type; without one there is no array.
pub fn length(
    alloc: Global,
    layout: &Layout,
    room: Room,
    at: u16,
    table: u16,
    homes: Homes,
) -> Result<Piece, Refusal<Fault>>
    requires room { room.locals + room.temps ≤ 252 }
    requires settled { homes.truth ≡ None }
    ensures { Lays result at (array_length room (lone_of layout.now table) (slice_get layout.now.tables table) homes.homes) }
{
    match lone_of(layout, table) {
        Some(array) => known_length(alloc, at, array.length, homes),
        None => length_by(alloc, layout, room, at, table, homes),
    }
}

pub(crate) fn store_at(width: u8, base: u16, index: Operand, value: Operand) -> Plain
    ensures { result ≡ store_at width base index value }
{
    Plain::Store(width, Address { base, index }, value)
}

fn store_one(
    alloc: Global,
    at: u16,
    width: u8,
    place: Place,
    homes: Homes,
) -> Result<Piece, Refusal<Fault>>
    requires { homes.truth ≡ None }
    ensures { Lays result at (store_one width (Some place) homes.homes) }
{
    let mut homes = homes;
    match homes.pop() {
        Some(value) => {
            if is_width(width) && width == place.width {
                let store = store_at(width, place.address, Operand::Known(0), value);
                return Ok(one(alloc, Open::Set(Instr::Plain(store)), homes)?);
            }
            Err(Refusal::Fault(Fault::NotTaken))
        }
        None => Err(Refusal::Fault(Fault::NotTaken)),
    }
}

/// The one value of a column gets another.
pub fn store(
    alloc: Global,
    layout: &Layout,
    at: u16,
    column: u16,
    width: u8,
    homes: Homes,
) -> Result<Piece, Refusal<Fault>>
    requires { homes.truth ≡ None }
    ensures { Lays result at (store_one width (slice_get layout.now.ram column) homes.homes) }
{
    match layout.ram.as_slice().get(column as usize) {
        Some(place) => store_one(alloc, at, width, *place, homes),
        None => Err(Refusal::Fault(Fault::NotTaken)),
    }
}

/// Behind the null check of a number, a value goes to so many bytes: those at a base, so many times further as the number says.
#[tactic(auto, using(vg_flatten_shapes::proofs::Sizes::late))]
fn put_of(
    alloc: Global,
    room: Room,
    at: u16,
    width: u8,
    base: u16,
    value: Operand,
    home: Operand,
    homes: Homes,
) -> Result<Piece, Refusal<Fault>>
    requires room { room.locals + room.temps ≤ 252 }
    requires settled { homes.truth ≡ None }
    ensures { Lays result at (put_of room width base value home homes.homes) }
{
    let mut homes = homes;
    homes.push(home)?;
    homes.push(value)?;
    let to = temp(room, &homes)?;
    homes.pop();
    homes.pop();
    let check = null_check(alloc, room, at, home)?;
    let inside = place_behind(at, check.len())?;
    let mut rest = multiplied(alloc, inside, to, width, home)?;
    let store = store_at(width, base, multiple(to, width, home), value);
    rest.push(Open::Set(Instr::Plain(store)))?;
    let code = append(check, rest.as_slice())?;
    Ok(Piece { code, homes })
}

/// The same, where the number is counted from another one.
#[tactic(auto, using(vg_flatten_shapes::proofs::Sizes::late))]
fn put_from(
    alloc: Global,
    room: Room,
    at: u16,
    first: u16,
    place: Place,
    value: Operand,
    home: Operand,
    homes: Homes,
) -> Result<Piece, Refusal<Fault>>
    requires room { room.locals + room.temps ≤ 252 }
    requires settled { homes.truth ≡ None }
    ensures { Lays result at (put_from room place.width first place.address value home homes.homes) }
{
    let mut homes = homes;
    homes.push(home)?;
    homes.push(value)?;
    let to = temp(room, &homes)?;
    homes.pop();
    homes.pop();
    let number = Operand::Local(to);
    let check = null_check(alloc, room, at, home)?;
    let distance_at = place_behind(at, check.len())?;
    let inside = place_behind(distance_at, 1)?;
    let mut rest = multiplied(alloc, inside, to, place.width, number)?;
    let index = multiple(to, place.width, number);
    rest.push(Open::Set(Instr::Plain(store_at(place.width, place.address, index, value))))?;
    let mut code = check;
    code.push(Open::Set(Instr::Plain(distance(to, first, home))))?;
    let code = append(code, rest.as_slice())?;
    Ok(Piece { code, homes })
}

/// The value of an object at its place gets another.
fn store_placed(
    alloc: Global,
    room: Room,
    at: u16,
    first: u16,
    place: Place,
    value: Operand,
    home: Operand,
    homes: Homes,
) -> Result<Piece, Refusal<Fault>>
    requires room { room.locals + room.temps ≤ 252 }
    requires settled { homes.truth ≡ None }
    ensures { Lays result at (store_placed room place.width first place.address value home homes.homes) }
{
    let before = place.width as u32 * first as u32;
    if before <= place.address as u32 {
        let base = place.address - before as u16;
        return put_of(alloc, room, at, place.width, base, value, home, homes);
    }
    put_from(alloc, room, at, first, place, value, home, homes)
}

/// Behind the null check of a number, a value goes to the bytes of the one entry of a column.
#[tactic(auto, using(vg_flatten_shapes::proofs::Sizes::late))]
fn put_sole(
    alloc: Global,
    room: Room,
    at: u16,
    place: Place,
    value: Operand,
    home: Operand,
    homes: Homes,
) -> Result<Piece, Refusal<Fault>>
    requires { homes.truth ≡ None }
    ensures { Lays result at (put_sole room place.width place.address value home homes.homes) }
{
    let mut code = null_check(alloc, room, at, home)?;
    let store = store_at(place.width, place.address, Operand::Known(0), value);
    code.push(Open::Set(Instr::Plain(store)))?;
    Ok(Piece { code, homes })
}

/// The value of an object of a column gets another, by whether the column has others.
fn store_entry(
    alloc: Global,
    room: Room,
    at: u16,
    first: u16,
    place: Place,
    value: Operand,
    home: Operand,
    homes: Homes,
) -> Result<Piece, Refusal<Fault>>
    requires room { room.locals + room.temps ≤ 252 }
    requires settled { homes.truth ≡ None }
    ensures { Lays result at (store_entry room first place.width place value home homes.homes) }
{
    if place.count == 1 {
        return put_sole(alloc, room, at, place, value, home, homes);
    }
    store_placed(alloc, room, at, first, place, value, home, homes)
}

fn store_of(
    alloc: Global,
    room: Room,
    at: u16,
    first: u16,
    width: u8,
    place: Place,
    homes: Homes,
) -> Result<Piece, Refusal<Fault>>
    requires room { room.locals + room.temps ≤ 252 }
    requires settled { homes.truth ≡ None }
    ensures { Lays result at (store_of room first width (Some place) homes.homes) }
{
    let mut homes = homes;
    match (homes.pop(), homes.pop()) {
        (Some(value), Some(home)) => {
            if is_width(width) && width == place.width {
                return store_entry(alloc, room, at, first, place, value, home, homes);
            }
            Err(Refusal::Fault(Fault::NotTaken))
        }
        _ => Err(Refusal::Fault(Fault::NotTaken)),
    }
}

/// The value of an object gets another.
pub fn store_to(
    alloc: Global,
    layout: &Layout,
    room: Room,
    at: u16,
    column: u16,
    first: u16,
    width: u8,
    homes: Homes,
) -> Result<Piece, Refusal<Fault>>
    requires room { room.locals + room.temps ≤ 252 }
    requires settled { homes.truth ≡ None }
    ensures { Lays result at (store_of room first width (slice_get layout.now.ram column) homes.homes) }
{
    match layout.ram.as_slice().get(column as usize) {
        Some(place) => store_of(alloc, room, at, first, width, *place, homes),
        None => Err(Refusal::Fault(Fault::NotTaken)),
    }
}
