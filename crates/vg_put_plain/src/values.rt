// Values that go to locals, or wait for a call.
ghost use Rattle.std.specs.Prelude.{◌≡◌, ◌≤◌, ◌<◌, ◌++◌, OnOk, length};
ghost use Rattle.vg_templates.specs.Plain.{bytes_in, copies, copies_local, copies_low, copies_through, copies_whole, pushes_value};
ghost use Rattle.vg_templates.specs.Layouts.{width_of};
ghost use Rattle.vg_alloc.specs.Locations.{layout, place, IsWithin};
ghost use Rattle.vg_put_values.specs.Within.{IsThere};

use avr_instr::Instr;
use std::alloc::Global;
use vg_alloc::{Locations, Spot};
use vg_base::{NoMemory, Row};
use vg_lin::Operand;
use vg_put_chains::{put_known, put_pushes};
use vg_put_values::{
    clear_home_of, found_in, made_in, put_brings, put_fetch, put_finds, put_gives, put_settles,
};

// So many low bytes of a value go to a local, and zeros behind them.
fn put_copies_low(
    code: &mut Row<Instr>,
    locations: &Locations,
    to: u8,
    operand: Operand,
    count: u8,
) -> Result<(), NoMemory>
    requires there { to < length locations.now.widths }
    requires operand { IsThere (layout locations.now) operand }
    requires few { count ≤ 4 }
    ensures { OnOk result (code.new ≡ code.old ++ copies_low (layout locations.now) to operand count) }
{
    put_brings(code, locations, operand, 22, count)?;
    put_gives(code, locations, to, 22, count)
}

/// A known number goes to a local, by as many instructions whatever the number.
pub fn put_copies_whole(
    code: &mut Row<Instr>,
    locations: &Locations,
    to: u8,
    value: u32,
) -> Result<(), NoMemory>
    requires there { to < length locations.now.widths }
    ensures { OnOk result (code.new ≡ code.old ++ copies_whole (layout locations.now) to value) }
{
    let width = locations.width(to);
    put_known(code, 22, width, u64::from(value))?;
    put_gives(code, locations, to, 22, width)
}

// How many low bytes of a number, of so many, have only zeros behind them.
fn bytes_in(most: u8, value: u32) -> u8
    ensures is { result ≡ bytes_in most value }
    ensures few { result ≤ most }
{
    if most == 0 {
        return 0;
    }
    if value == 0 {
        return 0;
    }
    1 + bytes_in(most - 1, value / 256)
}

// The value of a local comes into the registers of another one, or through scratch ones.
fn put_copies_through(
    code: &mut Row<Instr>,
    locations: &Locations,
    to: u8,
    from: u8,
) -> Result<(), NoMemory>
    requires there { to < length locations.now.widths }
    requires source { from < length locations.now.widths }
    ensures { OnOk result (code.new ≡ code.old ++ copies_through (layout locations.now) to from) }
{
    let count = locations.width(to);
    let spot = locations.spot(from);
    let width = locations.width(from);
    let home = clear_home_of(locations, to, count, spot, width);
    put_fetch(code, spot, width, made_in(home), count)?;
    put_settles(code, locations, to, home, count)
}

// From registers it goes to the frame at once.
fn put_copies_local(
    code: &mut Row<Instr>,
    locations: &Locations,
    to: u8,
    from: u8,
    target: Spot,
    source: Spot,
) -> Result<(), NoMemory>
    requires there { to < length locations.now.widths }
    requires source { from < length locations.now.widths }
    requires within { IsWithin source (width_of (layout locations.now) from) }
    ensures { OnOk result (code.new ≡ code.old ++ copies_local (place target) (place source) (layout locations.now) to from) }
{
    match target {
        Spot::Frame(_) => match source {
            Spot::Frame(_) => put_copies_through(code, locations, to, from),
            Spot::Registers(first) => {
                put_gives(code, locations, to, first, locations.width(from))
            }
        },
        Spot::Registers(_) => put_copies_through(code, locations, to, from),
    }
}

/// A value goes to a local. For the zeros with which a known number ends, nothing is loaded.
pub fn put_copies(
    code: &mut Row<Instr>,
    locations: &Locations,
    to: u8,
    operand: Operand,
) -> Result<(), NoMemory>
    requires there { to < length locations.now.widths }
    requires operand { IsThere (layout locations.now) operand }
    ensures { OnOk result (code.new ≡ code.old ++ copies (layout locations.now) to operand) }
{
    match operand {
        Operand::Local(from) => {
            let target = locations.spot(to);
            put_copies_local(code, locations, to, from, target, locations.spot(from))
        }
        Operand::Known(value) => {
            let count = bytes_in(locations.width(to), value);
            put_copies_low(code, locations, to, operand, count)
        }
    }
}

/// The low bytes of a value wait for a call.
pub fn put_pushes_value(
    alloc: Global,
    code: &mut Row<Instr>,
    locations: &Locations,
    width: u8,
    operand: Operand,
) -> Result<(), NoMemory>
    requires narrow { width ≤ 4 }
    requires operand { IsThere (layout locations.now) operand }
    ensures { OnOk result (code.new ≡ code.old ++ pushes_value (layout locations.now) width operand) }
{
    put_finds(code, locations, operand, 22, width)?;
    let registers = found_in(alloc, locations, operand, 22, width)?;
    put_pushes(code, registers.as_slice())
}
