// What loads of elements, and stores to them, become.
ghost use Rattle.std.specs.Prelude.{◌≡◌, ◌+◌, ◌≤◌, ◌∷◌, Option, Some, None, slice_get};
ghost use Rattle.vg_firm.specs.declared.step.ArrayPlace.{ArrayPlace};
ghost use Rattle.vg_lin.specs.declared.instr.Operand.TheVariants.{Known};
ghost use Rattle.vg_flatten_shapes.specs.Blocks.{open_code};
ghost use Rattle.vg_flatten_shapes.specs.Laying.{Lays, LaysCode};
ghost use Rattle.vg_flatten_places.specs.Places.{is_place, timed, place_of, inside, bounded, reached, element_of, load_element, load_item, lone_of, places_in};
ghost use Rattle.vg_flatten_places.specs.Places.{lone_bounded, lone_element, load_lone, load_inside, load_dropped, store_lone, store_inside, store_dropped, no_element, store_element, store_item};

use crate::columns::{
    is_width, load_from, lone_of, memory_of, multiple, multiplied, places_in, store_at,
};
use crate::nothing::{load_no_item, store_no_item};
use std::alloc::Global;
use vg_base::{Refusal, Row};
use vg_firm::{ArrayPlace, Elements};
use vg_flatten_shapes::{
    Fault, Homes, Layout, Open, Piece, Place, Room, Truth, append, place_behind, stop_where,
};
use vg_flatten_values::{is_zero, temp, test_of};
use vg_lin::{Comparison, Computation, Instr, Memory, Operand, Operator, Plain};

/// How an element is reached: by two temporaries and the address of a table, from an array's number and an index.
#[derive(Clone, Copy)]
pub struct Reach {
    pub first: u8,
    pub second: u8,
    pub table: u16,
    /// How many bytes an element has.
    pub width: u8,
    pub home: Operand,
    pub index: Operand,
}

fn is_place(elements: Elements, place: Place) -> bool
    ensures { result ≡ is_place elements place }
{
    elements.address == place.address && elements.width == place.width
}

fn timed(to: u8, by: u8, home: Operand) -> Plain
    ensures { result ≡ timed to by home }
{
    Plain::Compute(Computation {
        operator: Operator::Times,
        width: 2,
        to,
        left: home,
        right: Operand::Known(by as u32),
    })
}

/// What is done with the address of an element, which is so many times its width behind that of the array.
fn place_of(alloc: Global, at: u16, reach: Reach, last: Plain) -> Result<Row<Open>, Refusal<Fault>>
    requires { 4 ≤ reach.table }
    ensures { LaysCode result at (open_code (place_of reach last) at) }
{
    let first = Operand::Local(reach.first);
    let address = load_from(Memory::Flash, 2, reach.first, reach.table - 4, first);
    let sum = Computation {
        operator: Operator::Plus,
        width: 2,
        to: reach.first,
        left: first,
        right: Operand::Local(reach.second),
    };
    let mut code = Row::new(alloc);
    code.push(Open::Set(Instr::Plain(address)))?;
    code.push(Open::Set(Instr::Plain(timed(reach.second, reach.width, reach.index))))?;
    code.push(Open::Set(Instr::Plain(Plain::Compute(sum))))?;
    code.push(Open::Set(Instr::Plain(last)))?;
    Ok(code)
}

/// The same, or a stop where the elements have no column: then no array has an element, and no index is within bounds.
fn inside(
    alloc: Global,
    at: u16,
    reach: Reach,
    last: Option<Plain>,
) -> Result<Row<Open>, Refusal<Fault>>
    requires { 4 ≤ reach.table }
    ensures { LaysCode result at (open_code (inside reach last) at) }
{
    match last {
        Some(last) => place_of(alloc, at, reach, last),
        None => {
            let mut code = Row::new(alloc);
            code.push(Open::Set(Instr::Plain(Plain::Stop(2))))?;
            Ok(code)
        }
    }
}

/// The same behind the bounds check.
fn bounded(
    alloc: Global,
    at: u16,
    reach: Reach,
    last: Option<Plain>,
) -> Result<Row<Open>, Refusal<Fault>>
    requires { 4 ≤ reach.table }
    ensures { LaysCode result (at + 3) (open_code (bounded reach last) at) }
{
    let within = test_of(Comparison::Below, reach.index, Operand::Local(reach.second));
    let check = stop_where(alloc, at, 2, Truth::Fails(within))?;
    let inside_at = place_behind(at, 2)?;
    let rest = inside(alloc, inside_at, reach, last)?;
    Ok(append(check, rest.as_slice())?)
}

/// The same behind a load of the length of the array.
fn reached(
    alloc: Global,
    at: u16,
    reach: Reach,
    last: Option<Plain>,
) -> Result<Row<Open>, Refusal<Fault>>
    requires { 4 ≤ reach.table }
    ensures { LaysCode result (at + 5) (open_code (reached reach last) at) }
{
    let first = Operand::Local(reach.first);
    let length = load_from(Memory::Flash, 2, reach.second, reach.table - 2, first);
    let mut code = Row::new(alloc);
    code.push(Open::Set(Instr::Plain(timed(reach.first, 4, reach.home))))?;
    code.push(Open::Set(Instr::Plain(length)))?;
    let length_at = place_behind(at, 1)?;
    let inside = place_behind(length_at, 1)?;
    let rest = bounded(alloc, inside, reach, last)?;
    Ok(append(code, rest.as_slice())?)
}

/// The same behind the null check.
fn element_of(
    alloc: Global,
    at: u16,
    reach: Reach,
    last: Option<Plain>,
) -> Result<Row<Open>, Refusal<Fault>>
    requires { 4 ≤ reach.table }
    ensures { LaysCode result (at + 7) (open_code (element_of reach last) at) }
{
    let check = stop_where(alloc, at, 1, Truth::Holds(is_zero(reach.home)))?;
    let inside = place_behind(at, 2)?;
    let rest = reached(alloc, inside, reach, last)?;
    Ok(append(check, rest.as_slice())?)
}

#[tactic(auto, using(vg_flatten_shapes::proofs::Sizes::late))]
fn load_element(
    alloc: Global,
    room: Room,
    at: u16,
    elements: Elements,
    table: u16,
    home: Operand,
    index: Operand,
    homes: Homes,
) -> Result<Piece, Refusal<Fault>>
    requires room { room.locals + room.temps ≤ 252 }
    requires settled { homes.truth ≡ None }
    requires table { 4 ≤ table }
    ensures { Lays result at (load_element room elements table home index homes.homes) }
{
    let to = temp(room, &homes)?;
    let mut homes = homes;
    homes.push(home)?;
    homes.push(index)?;
    let first = temp(room, &homes)?;
    homes.push(Operand::Local(first))?;
    let second = temp(room, &homes)?;
    homes.pop();
    homes.pop();
    homes.pop();
    let reach = Reach {
        first,
        second,
        table,
        width: elements.width,
        home,
        index,
    };
    let memory = memory_of(elements.home);
    let load = load_from(memory, elements.width, to, 0, Operand::Local(first));
    let code = element_of(alloc, at, reach, Some(load))?;
    homes.push(Operand::Local(to))?;
    Ok(Piece { code, homes })
}

/// What is done with the element of an array that is the only one of its table, behind the bounds check.
fn lone_bounded(
    alloc: Global,
    at: u16,
    length: u16,
    width: u8,
    to: u8,
    index: Operand,
    last: Plain,
) -> Result<Row<Open>, Refusal<Fault>>
    ensures { LaysCode result (at + 3) (open_code (lone_bounded length width to index last) at) }
{
    let within = test_of(Comparison::Below, index, Operand::Known(length as u32));
    let check = stop_where(alloc, at, 2, Truth::Fails(within))?;
    let inside = place_behind(at, 2)?;
    let mut rest = multiplied(alloc, inside, to, width, index)?;
    rest.push(Open::Set(Instr::Plain(last)))?;
    Ok(append(check, rest.as_slice())?)
}

/// The same behind the null check.
fn lone_element(
    alloc: Global,
    at: u16,
    length: u16,
    width: u8,
    to: u8,
    home: Operand,
    index: Operand,
    last: Plain,
) -> Result<Row<Open>, Refusal<Fault>>
    ensures { LaysCode result (at + 5) (open_code (lone_element length width to home index last) at) }
{
    let check = stop_where(alloc, at, 1, Truth::Holds(is_zero(home)))?;
    let inside = place_behind(at, 2)?;
    let rest = lone_bounded(alloc, inside, length, width, to, index, last)?;
    Ok(append(check, rest.as_slice())?)
}

#[tactic(auto, using(vg_flatten_shapes::proofs::Sizes::late))]
fn load_lone(
    alloc: Global,
    room: Room,
    at: u16,
    elements: Elements,
    array: ArrayPlace,
    home: Operand,
    index: Operand,
    homes: Homes,
) -> Result<Piece, Refusal<Fault>>
    requires room { room.locals + room.temps ≤ 252 }
    requires settled { homes.truth ≡ None }
    ensures { Lays result at (load_lone room elements array home index homes.homes) }
{
    let to = temp(room, &homes)?;
    let width = elements.width;
    let place = multiple(to, width, index);
    let load = load_from(memory_of(elements.home), width, to, array.address, place);
    let code = lone_element(alloc, at, array.length, width, to, home, index, load)?;
    let mut homes = homes;
    homes.push(Operand::Local(to))?;
    Ok(Piece { code, homes })
}

/// By whether the array of the table is the only one.
fn load_inside(
    alloc: Global,
    room: Room,
    at: u16,
    single: Option<ArrayPlace>,
    elements: Elements,
    table: u16,
    home: Operand,
    index: Operand,
    homes: Homes,
) -> Result<Piece, Refusal<Fault>>
    requires room { room.locals + room.temps ≤ 252 }
    requires settled { homes.truth ≡ None }
    requires table { 4 ≤ table }
    ensures { Lays result at (load_inside room single elements table home index homes.homes) }
{
    match single {
        Some(array) => load_lone(alloc, room, at, elements, array, home, index, homes),
        None => load_element(alloc, room, at, elements, table, home, index, homes),
    }
}

fn load_item_at(
    alloc: Global,
    room: Room,
    at: u16,
    single: Option<ArrayPlace>,
    elements: Elements,
    place: Place,
    table: u16,
    homes: Homes,
) -> Result<Piece, Refusal<Fault>>
    requires room { room.locals + room.temps ≤ 252 }
    requires settled { homes.truth ≡ None }
    ensures { Lays result at (load_item room single elements (Some place) (Some table) homes.homes) }
{
    let mut homes = homes;
    match (homes.pop(), homes.pop()) {
        (Some(index), Some(home)) => {
            if is_width(elements.width) && is_place(elements, place) && table >= 4 {
                return load_inside(alloc, room, at, single, elements, table, home, index, homes);
            }
            Err(Refusal::Fault(Fault::NotTaken))
        }
        _ => Err(Refusal::Fault(Fault::NotTaken)),
    }
}

#[tactic(auto, using(vg_flatten_shapes::proofs::Sizes::late))]
fn load_no_element(
    alloc: Global,
    room: Room,
    at: u16,
    width: u8,
    table: u16,
    home: Operand,
    index: Operand,
    homes: Homes,
) -> Result<Piece, Refusal<Fault>>
    requires room { room.locals + room.temps ≤ 252 }
    requires settled { homes.truth ≡ None }
    requires table { 4 ≤ table }
    ensures { Lays result at (no_element room width table home index homes.homes (Known 0 ∷ homes.homes)) }
{
    let mut homes = homes;
    homes.push(home)?;
    homes.push(index)?;
    let first = temp(room, &homes)?;
    homes.push(Operand::Local(first))?;
    let second = temp(room, &homes)?;
    homes.pop();
    homes.pop();
    homes.pop();
    let reach = Reach {
        first,
        second,
        table,
        width,
        home,
        index,
    };
    let code = element_of(alloc, at, reach, None)?;
    homes.push(Operand::Known(0))?;
    Ok(Piece { code, homes })
}

fn load_dropped(
    alloc: Global,
    room: Room,
    at: u16,
    elements: Elements,
    table: u16,
    homes: Homes,
) -> Result<Piece, Refusal<Fault>>
    requires room { room.locals + room.temps ≤ 252 }
    requires settled { homes.truth ≡ None }
    ensures { Lays result at (load_dropped room elements table homes.homes) }
{
    let mut homes = homes;
    match (homes.pop(), homes.pop()) {
        (Some(index), Some(home)) => {
            if table >= 4 {
                let width = elements.width;
                return load_no_element(alloc, room, at, width, table, home, index, homes);
            }
            Err(Refusal::Fault(Fault::NotTaken))
        }
        _ => Err(Refusal::Fault(Fault::NotTaken)),
    }
}

/// An element, by the array's number and the index. Where the type of the array has no table, it has no arrays; where the elements have no
/// column, no array has an element.
pub fn load_item(
    alloc: Global,
    layout: &Layout,
    room: Room,
    at: u16,
    elements: Elements,
    homes: Homes,
) -> Result<Piece, Refusal<Fault>>
    requires room { room.locals + room.temps ≤ 252 }
    requires settled { homes.truth ≡ None }
    ensures { Lays result at (load_item room (lone_of layout.now elements.table) elements (slice_get (places_in layout.now elements.home) elements.column)
        (slice_get layout.now.tables elements.table) homes.homes) }
{
    let single = lone_of(layout, elements.table);
    load_item_by(alloc, layout, room, at, single, elements, homes)
}

fn load_item_by(
    alloc: Global,
    layout: &Layout,
    room: Room,
    at: u16,
    single: Option<ArrayPlace>,
    elements: Elements,
    homes: Homes,
) -> Result<Piece, Refusal<Fault>>
    requires room { room.locals + room.temps ≤ 252 }
    requires settled { homes.truth ≡ None }
    ensures { Lays result at (load_item room single elements (slice_get (places_in layout.now elements.home) elements.column)
        (slice_get layout.now.tables elements.table) homes.homes) }
{
    match layout.tables.as_slice().get(elements.table as usize) {
        Some(table) => match places_in(layout, elements.home).get(elements.column as usize) {
            Some(place) => load_item_at(alloc, room, at, single, elements, *place, *table, homes),
            None => load_dropped(alloc, room, at, elements, *table, homes),
        },
        None => load_no_item(alloc, at, homes),
    }
}

#[tactic(auto, using(vg_flatten_shapes::proofs::Sizes::late))]
fn store_element(
    alloc: Global,
    room: Room,
    at: u16,
    width: u8,
    table: u16,
    value: Operand,
    home: Operand,
    index: Operand,
    homes: Homes,
) -> Result<Piece, Refusal<Fault>>
    requires room { room.locals + room.temps ≤ 252 }
    requires settled { homes.truth ≡ None }
    requires table { 4 ≤ table }
    ensures { Lays result at (store_element room width table value home index homes.homes) }
{
    let mut homes = homes;
    homes.push(home)?;
    homes.push(index)?;
    homes.push(value)?;
    let first = temp(room, &homes)?;
    homes.push(Operand::Local(first))?;
    let second = temp(room, &homes)?;
    homes.pop();
    homes.pop();
    homes.pop();
    homes.pop();
    let reach = Reach {
        first,
        second,
        table,
        width,
        home,
        index,
    };
    let store = store_at(width, 0, Operand::Local(first), value);
    let code = element_of(alloc, at, reach, Some(store))?;
    Ok(Piece { code, homes })
}

#[tactic(auto, using(vg_flatten_shapes::proofs::Sizes::late))]
fn store_lone(
    alloc: Global,
    room: Room,
    at: u16,
    width: u8,
    array: ArrayPlace,
    value: Operand,
    home: Operand,
    index: Operand,
    homes: Homes,
) -> Result<Piece, Refusal<Fault>>
    requires room { room.locals + room.temps ≤ 252 }
    requires settled { homes.truth ≡ None }
    ensures { Lays result at (store_lone room width array value home index homes.homes) }
{
    let mut homes = homes;
    homes.push(home)?;
    homes.push(index)?;
    homes.push(value)?;
    let to = temp(room, &homes)?;
    homes.pop();
    homes.pop();
    homes.pop();
    let store = store_at(width, array.address, multiple(to, width, index), value);
    let code = lone_element(alloc, at, array.length, width, to, home, index, store)?;
    Ok(Piece { code, homes })
}

/// By whether the array of the table is the only one.
fn store_inside(
    alloc: Global,
    room: Room,
    at: u16,
    single: Option<ArrayPlace>,
    width: u8,
    table: u16,
    value: Operand,
    home: Operand,
    index: Operand,
    homes: Homes,
) -> Result<Piece, Refusal<Fault>>
    requires room { room.locals + room.temps ≤ 252 }
    requires settled { homes.truth ≡ None }
    requires table { 4 ≤ table }
    ensures { Lays result at (store_inside room single width table value home index homes.homes) }
{
    match single {
        Some(array) => store_lone(alloc, room, at, width, array, value, home, index, homes),
        None => store_element(alloc, room, at, width, table, value, home, index, homes),
    }
}

fn store_item_at(
    alloc: Global,
    room: Room,
    at: u16,
    single: Option<ArrayPlace>,
    elements: Elements,
    place: Place,
    table: u16,
    homes: Homes,
) -> Result<Piece, Refusal<Fault>>
    requires room { room.locals + room.temps ≤ 252 }
    requires settled { homes.truth ≡ None }
    ensures { Lays result at (store_item room single elements (Some place) (Some table) homes.homes) }
{
    let mut homes = homes;
    match (homes.pop(), homes.pop(), homes.pop()) {
        (Some(value), Some(index), Some(home)) => {
            if is_width(elements.width) && is_place(elements, place) && table >= 4 {
                let width = elements.width;
                return store_inside(
                    alloc, room, at, single, width, table, value, home, index, homes,
                );
            }
            Err(Refusal::Fault(Fault::NotTaken))
        }
        _ => Err(Refusal::Fault(Fault::NotTaken)),
    }
}

#[tactic(auto, using(vg_flatten_shapes::proofs::Sizes::late))]
fn store_no_element(
    alloc: Global,
    room: Room,
    at: u16,
    width: u8,
    table: u16,
    home: Operand,
    index: Operand,
    homes: Homes,
) -> Result<Piece, Refusal<Fault>>
    requires room { room.locals + room.temps ≤ 252 }
    requires settled { homes.truth ≡ None }
    requires table { 4 ≤ table }
    ensures { Lays result at (no_element room width table home index homes.homes homes.homes) }
{
    let mut homes = homes;
    homes.push(home)?;
    homes.push(index)?;
    let first = temp(room, &homes)?;
    homes.push(Operand::Local(first))?;
    let second = temp(room, &homes)?;
    homes.pop();
    homes.pop();
    homes.pop();
    let reach = Reach {
        first,
        second,
        table,
        width,
        home,
        index,
    };
    let code = element_of(alloc, at, reach, None)?;
    Ok(Piece { code, homes })
}

fn store_dropped(
    alloc: Global,
    room: Room,
    at: u16,
    elements: Elements,
    table: u16,
    homes: Homes,
) -> Result<Piece, Refusal<Fault>>
    requires room { room.locals + room.temps ≤ 252 }
    requires settled { homes.truth ≡ None }
    ensures { Lays result at (store_dropped room elements table homes.homes) }
{
    let mut homes = homes;
    match (homes.pop(), homes.pop(), homes.pop()) {
        (Some(_), Some(index), Some(home)) => {
            if table >= 4 {
                let width = elements.width;
                return store_no_element(alloc, room, at, width, table, home, index, homes);
            }
            Err(Refusal::Fault(Fault::NotTaken))
        }
        _ => Err(Refusal::Fault(Fault::NotTaken)),
    }
}

/// An element gets a value, by the array's number and the index. Where the type of the array has no table, it has no arrays; where the
/// elements have no column, no array has an element.
pub fn store_item(
    alloc: Global,
    layout: &Layout,
    room: Room,
    at: u16,
    elements: Elements,
    homes: Homes,
) -> Result<Piece, Refusal<Fault>>
    requires room { room.locals + room.temps ≤ 252 }
    requires settled { homes.truth ≡ None }
    ensures { Lays result at (store_item room (lone_of layout.now elements.table) elements (slice_get layout.now.ram elements.column)
        (slice_get layout.now.tables elements.table) homes.homes) }
{
    let single = lone_of(layout, elements.table);
    store_item_by(alloc, layout, room, at, single, elements, homes)
}

fn store_item_by(
    alloc: Global,
    layout: &Layout,
    room: Room,
    at: u16,
    single: Option<ArrayPlace>,
    elements: Elements,
    homes: Homes,
) -> Result<Piece, Refusal<Fault>>
    requires room { room.locals + room.temps ≤ 252 }
    requires settled { homes.truth ≡ None }
    ensures { Lays result at (store_item room single elements (slice_get layout.now.ram elements.column)
        (slice_get layout.now.tables elements.table) homes.homes) }
{
    match layout.tables.as_slice().get(elements.table as usize) {
        Some(table) => match layout.ram.as_slice().get(elements.column as usize) {
            Some(place) => store_item_at(alloc, room, at, single, elements, *place, *table, homes),
            None => store_dropped(alloc, room, at, elements, *table, homes),
        },
        None => store_no_item(alloc, at, homes),
    }
}
