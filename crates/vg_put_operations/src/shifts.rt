// Shifts by known amounts.
ghost use Rattle.std.specs.Prelude.{◌≡◌, ◌≤◌, ◌<◌, ◌+◌, ◌/◌, ◌^◌, ◌++◌, true, None, OnOk, length};
ghost use Rattle.vg_templates.specs.Layouts.{width_of};
ghost use Rattle.vg_templates.specs.Homes.{home_of, made_in};
ghost use Rattle.vg_templates.specs.Operands.{least};
ghost use Rattle.vg_templates.specs.Plain.{is_known};
ghost use Rattle.vg_templates.specs.Shifts.{brings_above, fetch_above, is_clear_above, shift_home, stays, suits_above};
ghost use Rattle.vg_templates.specs.Shifts.{doubles_on, doubles, halves, repeats, shifts_left, shifts_right};
ghost use Rattle.vg_alloc.specs.Locations.{layout, place, IsWithin};
ghost use Rattle.vg_put_values.specs.Within.{IsHome, IsThere};

use avr_instr::{Instr, Register};
use vg_alloc::{Locations, Spot};
use vg_base::{NoMemory, Row};
use vg_lin::Operand;
use vg_put_chains::{put_clears, put_known, put_loads, put_moves, put_reach};
use vg_put_plain::is_there;
use vg_put_values::{home_of, least, made_in, put_settles};

/// The number in so many registers from d on is doubled, and the carry added.
pub fn put_doubles_on(code: &mut Row<Instr>, d: u8, count: u8) -> Result<(), NoMemory>
    requires { d + count ≤ 32 }
    ensures { OnOk result (code.new ≡ code.old ++ doubles_on d count) }
{
    if count == 0 {
        return Ok(());
    }
    code.push(Instr::Adc(Register::new(d), Register::new(d)))?;
    put_doubles_on(code, d + 1, count - 1)
}

/// The number in so many registers from d on is doubled.
pub fn put_doubles(code: &mut Row<Instr>, d: u8, count: u8) -> Result<(), NoMemory>
    requires { d + count ≤ 32 }
    ensures { OnOk result (code.new ≡ code.old ++ doubles d count) }
{
    if count == 0 {
        return Ok(());
    }
    code.push(Instr::Add(Register::new(d), Register::new(d)))?;
    put_doubles_on(code, d + 1, count - 1)
}

/// The number in so many registers from d on is halved, from its highest byte on.
pub fn put_halves(code: &mut Row<Instr>, d: u8, count: u8) -> Result<(), NoMemory>
    requires { d + count ≤ 32 }
    ensures { OnOk result (code.new ≡ code.old ++ halves d count) }
{
    if count == 0 {
        return Ok(());
    }
    if count == 1 {
        return code.push(Instr::Lsr(Register::new(d)));
    }
    put_halves(code, d + 1, count - 1)?;
    code.push(Instr::Ror(Register::new(d)))
}

fn put_all_doubles(code: &mut Row<Instr>, times: u8, d: u8, count: u8) -> Result<(), NoMemory>
    requires { d + count ≤ 32 }
    ensures { OnOk result (code.new ≡ code.old ++ repeats times (doubles d count)) }
{
    if times == 0 {
        return Ok(());
    }
    put_doubles(code, d, count)?;
    put_all_doubles(code, times - 1, d, count)
}

fn put_all_halves(code: &mut Row<Instr>, times: u8, d: u8, count: u8) -> Result<(), NoMemory>
    requires { d + count ≤ 32 }
    ensures { OnOk result (code.new ≡ code.old ++ repeats times (halves d count)) }
{
    if times == 0 {
        return Ok(());
    }
    put_halves(code, d, count)?;
    put_all_halves(code, times - 1, d, count)
}

// The whole bytes of an amount of bits, at most so many.
#[tactic(auto, using(crate::proofs::Shifted::bytes_are))]
fn whole_bytes(amount: u32, most: u8) -> u8
    ensures least { result ≡ least (amount / 8) most }
    ensures below { result ≤ most }
{
    let bytes = amount / 8;
    if bytes < u32::from(most) {
        bytes as u8
    } else {
        most
    }
}

// A shift: the operand and the amount, how many low bytes of the operand are dropped, and how many zeros come below so many of the others.
#[derive(Clone, Copy)]
struct Shift {
    operand: Operand,
    amount: u32,
    dropped: u8,
    zeros: u8,
    count: u8,
}

// The value at a spot comes without so many low bytes of its width.
fn put_fetch_above(
    code: &mut Row<Instr>,
    spot: Spot,
    width: u8,
    dropped: u8,
    d: u8,
    count: u8,
) -> Result<(), NoMemory>
    requires narrow { width ≤ 4 }
    requires within { IsWithin spot width }
    requires dropped { dropped ≤ width }
    requires top { d + count ≤ 32 }
    ensures { OnOk result (code.new ≡ code.old ++ fetch_above (place spot) width dropped d count) }
{
    match spot {
        Spot::Frame(at) => {
            let reached = put_reach(code, at, width)?;
            let from = reached.displacement + dropped;
            put_loads(code, reached.base, from, d, width - dropped, count)
        }
        Spot::Registers(first) => put_moves(code, first + dropped, d, width - dropped, count),
    }
}

// A number without so many low bytes.
fn without(value: u32, dropped: u8) -> u32
    requires { dropped ≤ 4 }
    ensures { result ≡ value / 256 ^ dropped }
{
    match dropped {
        0 => value,
        1 => value / 0x100,
        2 => value / 0x1_0000,
        3 => value / 0x100_0000,
        _ => 0,
    }
}

fn put_brings_above(
    code: &mut Row<Instr>,
    locations: &Locations,
    stand: bool,
    operand: Operand,
    dropped: u8,
    d: u8,
    count: u8,
) -> Result<(), NoMemory>
    requires operand { IsThere (layout locations.now) operand }
    requires dropped { dropped ≤ 4 }
    requires from { is_known operand ≡ true → 16 ≤ d }
    requires top { d + count ≤ 32 }
    ensures { OnOk result (code.new ≡ code.old ++ brings_above stand (layout locations.now) operand dropped d count) }
{
    if stand {
        return Ok(());
    }
    match operand {
        Operand::Local(j) => {
            let width = locations.width(j);
            let low = least(dropped, width);
            put_fetch_above(code, locations.spot(j), width, low, d, count)
        }
        Operand::Known(x) => put_known(code, d, count, u64::from(without(x, dropped))),
    }
}

// Whether bits alone are shifted, in registers where the operand is already.
fn stays(locations: &Locations, operand: Operand, amount: u32, d: u8, count: u8) -> bool
    requires operand { IsThere (layout locations.now) operand }
    ensures { result ≡ stays (layout locations.now) operand amount d count }
{
    0 < amount && (amount < 8 && is_there(locations, operand, d, count))
}

fn is_clear_above(spot: Spot, width: u8, dropped: u8, first: u8, count: u8) -> bool
    requires within { IsWithin spot width }
    requires dropped { dropped ≤ width }
    requires low { first + count ≤ 26 }
    ensures { result ≡ is_clear_above (place spot) width dropped first count }
{
    match spot {
        Spot::Frame(_) => true,
        Spot::Registers(f) => f + width <= first || first + count <= f + dropped,
    }
}

fn suits_above(locations: &Locations, operand: Operand, dropped: u8, first: u8, count: u8) -> bool
    requires operand { IsThere (layout locations.now) operand }
    requires low { first + count ≤ 26 }
    ensures { result ≡ suits_above (layout locations.now) operand dropped first count }
{
    match operand {
        Operand::Local(j) => {
            let width = locations.width(j);
            let low = least(dropped, width);
            is_clear_above(locations.spot(j), width, low, first, count)
        }
        Operand::Known(_) => false,
    }
}

fn kept_home(
    locations: &Locations,
    shift: Shift,
    most: u8,
    made: u8,
    home: Option<u8>,
) -> Option<u8>
    requires operand { IsThere (layout locations.now) shift.operand }
    requires few { shift.zeros + shift.count ≤ made }
    requires narrow { made ≤ 4 }
    requires home { IsHome home most made }
    requires low { made_in home + made ≤ 26 }
    ensures home { result ≡ shift_home (layout locations.now) shift.operand shift.amount shift.dropped shift.zeros shift.count home }
    ensures within { IsHome result most made }
    ensures low { made_in result + made ≤ 26 }
    ensures known { is_known shift.operand ≡ true → result ≡ None }
{
    let (operand, count) = (shift.operand, shift.count);
    match home {
        None => None,
        Some(first)
            if stays(locations, operand, shift.amount, first + shift.zeros, count)
                || suits_above(
                    locations,
                    operand,
                    shift.dropped,
                    first + shift.zeros,
                    count,
                ) => { Some(first) }
        Some(_) => None,
    }
}

// The home in which a shift is made, of so many bytes.
fn home_for(locations: &Locations, to: u8, shift: Shift, made: u8) -> Option<u8>
    requires there { to < length locations.now.widths }
    requires operand { IsThere (layout locations.now) shift.operand }
    requires few { shift.zeros + shift.count ≤ made }
    requires narrow { made ≤ 4 }
    ensures home { result ≡ shift_home (layout locations.now) shift.operand shift.amount shift.dropped shift.zeros shift.count
        (home_of (layout locations.now) to made) }
    ensures within { IsHome result (width_of (layout locations.now) to) made }
    ensures low { made_in result + made ≤ 26 }
    ensures known { is_known shift.operand ≡ true → result ≡ None }
{
    let home = home_of(locations, to, made);
    kept_home(locations, shift, locations.width(to), made, home)
}

// The bytes of the operand come, unless they stand there.
fn put_comes(
    code: &mut Row<Instr>,
    locations: &Locations,
    shift: Shift,
    d: u8,
) -> Result<(), NoMemory>
    requires operand { IsThere (layout locations.now) shift.operand }
    requires dropped { shift.dropped ≤ 4 }
    requires from { is_known shift.operand ≡ true → 16 ≤ d }
    requires top { d + shift.count ≤ 32 }
    ensures { OnOk result (code.new ≡ code.old ++ brings_above (stays (layout locations.now) shift.operand shift.amount d shift.count)
        (layout locations.now) shift.operand shift.dropped d shift.count) }
{
    let stand = stays(locations, shift.operand, shift.amount, d, shift.count);
    put_brings_above(
        code,
        locations,
        stand,
        shift.operand,
        shift.dropped,
        d,
        shift.count,
    )
}

/// The low bytes of a value, shifted left by so many bits, go to a local.
pub fn put_shifts_left(
    code: &mut Row<Instr>,
    locations: &Locations,
    width: u8,
    to: u8,
    operand: Operand,
    amount: u32,
) -> Result<(), NoMemory>
    requires there { to < length locations.now.widths }
    requires operand { IsThere (layout locations.now) operand }
    ensures { OnOk result (code.new ≡ code.old ++ shifts_left (layout locations.now) width to operand amount) }
{
    let made = least(width, locations.width(to));
    let whole = whole_bytes(amount, made);
    let count = made - whole;
    let shift = Shift {
        operand,
        amount,
        dropped: 0,
        zeros: whole,
        count,
    };
    let home = home_for(locations, to, shift, made);
    let d = made_in(home) + whole;
    put_comes(code, locations, shift, d)?;
    put_clears(code, made_in(home), whole)?;
    put_all_doubles(code, (amount % 8) as u8, d, count)?;
    put_settles(code, locations, to, home, made)
}

/// The low bytes of a value, shifted right by so many bits, go to a local.
pub fn put_shifts_right(
    code: &mut Row<Instr>,
    locations: &Locations,
    width: u8,
    to: u8,
    operand: Operand,
    amount: u32,
) -> Result<(), NoMemory>
    requires narrow { width ≤ 4 }
    requires there { to < length locations.now.widths }
    requires operand { IsThere (layout locations.now) operand }
    ensures { OnOk result (code.new ≡ code.old ++ shifts_right (layout locations.now) width to operand amount) }
{
    let whole = whole_bytes(amount, width);
    let count = width - whole;
    let shift = Shift {
        operand,
        amount,
        dropped: whole,
        zeros: 0,
        count,
    };
    let home = home_for(locations, to, shift, count);
    let d = made_in(home) + shift.zeros;
    put_comes(code, locations, shift, d)?;
    put_all_halves(code, (amount % 8) as u8, d, count)?;
    put_settles(code, locations, to, home, count)
}
