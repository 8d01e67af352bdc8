// Computations that work byte by byte. The left number comes into registers of the local that gets the result, or into r22 and behind it, and becomes the
// result.
ghost use Rattle.std.specs.Prelude.{◌≡◌, ◌≤◌, ◌<◌, ◌+◌, ◌^◌, ◌++◌, OnOk, length};
ghost use Rattle.vg_templates.specs.Plain.{comes, computes, computes_in, is_bytewise, is_known, is_there, operates, stands, suits_left, suits_right, work_home, works, works_at, works_with};
ghost use Rattle.vg_templates.specs.Layouts.{width_of};
ghost use Rattle.vg_alloc.specs.Locations.{layout, place};
ghost use Rattle.vg_put_values.specs.Within.{IsHome, IsThere};

use avr_instr::{Instr, Register};
use std::alloc::Global;
use vg_alloc::{Locations, Spot};
use vg_base::{NoMemory, Row};
use vg_lin::{Computation, Operand, Operator};
use vg_put_chains::{put_adds, put_ands, put_eors, put_ors, put_subtracts, put_takes_known};
use vg_put_values::{
    found_in, home_of, is_clear, least, put_brings, put_fetch, put_finds, put_gives, put_settles,
};

// How many numbers so many bytes can hold.
fn power(bytes: u8) -> u64
    requires { bytes ≤ 4 }
    ensures power { result ≡ 256 ^ bytes }
    ensures some { 0 < result }
{
    match bytes {
        0 => 1,
        1 => 0x100,
        2 => 0x1_0000,
        3 => 0x100_0000,
        _ => 0x1_0000_0000,
    }
}

fn put_operates(
    code: &mut Row<Instr>,
    d: u8,
    operator: Operator,
    registers: &[Register],
) -> Result<(), NoMemory>
    requires { d + length registers.now ≤ 32 }
    ensures { OnOk result (code.new ≡ code.old ++ operates d operator registers.now) }
{
    match operator {
        Operator::Plus => put_adds(code, d, registers),
        Operator::Minus => put_subtracts(code, d, registers),
        Operator::And => put_ands(code, d, registers),
        Operator::Or => put_ors(code, d, registers),
        Operator::Xor => put_eors(code, d, registers),
        Operator::Times
        | Operator::Divide
        | Operator::Remainder
        | Operator::ShiftLeft
        | Operator::ShiftRight => Ok(()),
    }
}

fn put_works_with(
    alloc: Global,
    code: &mut Row<Instr>,
    locations: &Locations,
    d: u8,
    operator: Operator,
    operand: Operand,
    count: u8,
) -> Result<(), NoMemory>
    requires operand { IsThere (layout locations.now) operand }
    requires few { count ≤ 4 }
    requires top { d + count ≤ 32 }
    ensures { OnOk result (code.new ≡ code.old ++ works_with (layout locations.now) d operator operand count) }
{
    put_finds(code, locations, operand, 18, count)?;
    let registers = found_in(alloc, locations, operand, 18, count)?;
    put_operates(code, d, operator, registers.as_slice())
}

// A known number that is added or taken stands in SUBI and SBCI themselves.
fn put_works(
    alloc: Global,
    code: &mut Row<Instr>,
    locations: &Locations,
    operator: Operator,
    operand: Operand,
    count: u8,
) -> Result<(), NoMemory>
    requires operand { IsThere (layout locations.now) operand }
    requires few { count ≤ 4 }
    ensures { OnOk result (code.new ≡ code.old ++ works (layout locations.now) operator operand count) }
{
    match (operator, operand) {
        (Operator::Plus, Operand::Known(y)) => {
            let all = power(count);
            put_takes_known(code, 22, count, all - u64::from(y) % all)
        }
        (Operator::Minus, Operand::Known(y)) => put_takes_known(code, 22, count, u64::from(y)),
        _ => put_works_with(alloc, code, locations, 22, operator, operand, count),
    }
}

fn is_bytewise(operator: Operator) -> bool
    ensures { result ≡ is_bytewise operator }
{
    match operator {
        Operator::Plus | Operator::Minus | Operator::And | Operator::Or | Operator::Xor => true,
        Operator::Times
        | Operator::Divide
        | Operator::Remainder
        | Operator::ShiftLeft
        | Operator::ShiftRight => false,
    }
}

fn is_known(operand: Operand) -> bool
    ensures { result ≡ is_known operand }
{
    match operand {
        Operand::Known(_) => true,
        Operand::Local(_) => false,
    }
}

fn stands(spot: Spot, width: u8, first: u8, count: u8) -> bool
    ensures { result ≡ stands (place spot) width first count }
{
    match spot {
        Spot::Frame(_) => false,
        Spot::Registers(r) => r == first && count <= width,
    }
}

/// Whether so many bytes of an operand are in registers from one on already.
pub fn is_there(locations: &Locations, operand: Operand, first: u8, count: u8) -> bool
    requires operand { IsThere (layout locations.now) operand }
    ensures { result ≡ is_there (layout locations.now) operand first count }
{
    match operand {
        Operand::Known(_) => false,
        Operand::Local(j) => stands(locations.spot(j), locations.width(j), first, count),
    }
}

fn suits_left(locations: &Locations, operand: Operand, first: u8, count: u8) -> bool
    requires operand { IsThere (layout locations.now) operand }
    requires low { first + count ≤ 26 }
    ensures { result ≡ suits_left (layout locations.now) operand first count }
{
    match operand {
        Operand::Known(_) => false,
        Operand::Local(j) => is_clear(locations.spot(j), locations.width(j), first, count),
    }
}

fn suits_right(locations: &Locations, operand: Operand, first: u8, width: u8) -> bool
    requires operand { IsThere (layout locations.now) operand }
    requires low { first + width ≤ 26 }
    ensures { result ≡ suits_right (layout locations.now) operand first width }
{
    match operand {
        Operand::Known(_) => true,
        Operand::Local(j) => is_clear(locations.spot(j), locations.width(j), first, width),
    }
}

// Whether a computation works in registers of its local.
fn works_at(locations: &Locations, computation: Computation, first: u8, count: u8) -> bool
    requires there { computation.to < length locations.now.widths }
    requires left { IsThere (layout locations.now) computation.left }
    requires right { IsThere (layout locations.now) computation.right }
    requires low { first + width_of (layout locations.now) computation.to ≤ 18 }
    requires few { count ≤ width_of (layout locations.now) computation.to }
    ensures { result ≡ works_at (layout locations.now) computation first count }
{
    let width = locations.width(computation.to);
    is_bytewise(computation.operator)
        && suits_right(locations, computation.right, first, width)
        && (is_there(locations, computation.left, first, count)
            || (!is_known(computation.right)
                && suits_left(locations, computation.left, first, count)))
}

fn work_home(
    locations: &Locations,
    computation: Computation,
    count: u8,
    home: Option<u8>,
) -> Option<u8>
    requires there { computation.to < length locations.now.widths }
    requires left { IsThere (layout locations.now) computation.left }
    requires right { IsThere (layout locations.now) computation.right }
    requires home { IsHome home (width_of (layout locations.now) computation.to) count }
    ensures home { result ≡ work_home (layout locations.now) computation count home }
    ensures within { IsHome result (width_of (layout locations.now) computation.to) count }
{
    match home {
        None => None,
        Some(first) if works_at(locations, computation, first, count) => Some(first),
        Some(_) => None,
    }
}

// The left operand comes, unless it stands there.
fn put_comes(
    code: &mut Row<Instr>,
    locations: &Locations,
    there: bool,
    operand: Operand,
    d: u8,
    count: u8,
) -> Result<(), NoMemory>
    requires operand { IsThere (layout locations.now) operand }
    requires top { d + count ≤ 32 }
    ensures { OnOk result (code.new ≡ code.old ++ comes there (layout locations.now) operand d count) }
{
    match operand {
        Operand::Known(_) => Ok(()),
        Operand::Local(j) => {
            if there {
                return Ok(());
            }
            put_fetch(code, locations.spot(j), locations.width(j), d, count)
        }
    }
}

fn put_computes_in(
    alloc: Global,
    code: &mut Row<Instr>,
    locations: &Locations,
    computation: Computation,
    home: Option<u8>,
    count: u8,
) -> Result<(), NoMemory>
    requires there { computation.to < length locations.now.widths }
    requires left { IsThere (layout locations.now) computation.left }
    requires right { IsThere (layout locations.now) computation.right }
    requires few { count ≤ 4 }
    requires home { IsHome home (width_of (layout locations.now) computation.to) count }
    ensures { OnOk result (code.new ≡ code.old ++ computes_in (layout locations.now) computation home count) }
{
    let (operator, right) = (computation.operator, computation.right);
    match home {
        None => {
            put_brings(code, locations, computation.left, 22, count)?;
            put_works(alloc, code, locations, operator, right, count)?;
            put_gives(code, locations, computation.to, 22, count)
        }
        Some(first) => {
            let there = is_there(locations, computation.left, first, count);
            put_comes(code, locations, there, computation.left, first, count)?;
            put_works_with(alloc, code, locations, first, operator, right, count)?;
            put_settles(code, locations, computation.to, Some(first), count)
        }
    }
}

/// A computation that works byte by byte, of no more bytes than its local has.
pub fn put_computes(
    alloc: Global,
    code: &mut Row<Instr>,
    locations: &Locations,
    computation: Computation,
) -> Result<(), NoMemory>
    requires there { computation.to < length locations.now.widths }
    requires left { IsThere (layout locations.now) computation.left }
    requires right { IsThere (layout locations.now) computation.right }
    ensures { OnOk result (code.new ≡ code.old ++ computes (layout locations.now) computation) }
{
    let count = least(computation.width, locations.width(computation.to));
    let own = home_of(locations, computation.to, count);
    let home = work_home(locations, computation, count, own);
    put_computes_in(alloc, code, locations, computation, home, count)
}
