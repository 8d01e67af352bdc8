// Operands that come into scratch registers, and numbers that go to locals.
ghost use Rattle.std.specs.Prelude.{◌≡◌, ◌≤◌, ◌<◌, ◌+◌, ◌++◌, OnOk, length};
ghost use Rattle.vg_templates.specs.Transfers.{fetch, keep};
ghost use Rattle.vg_templates.specs.Held.{brings, gives};
ghost use Rattle.vg_alloc.specs.Locations.{layout, place, IsWithin};
ghost use Rattle.vg_put_values.specs.Within.{IsThere};

use avr_instr::Instr;
use vg_alloc::{Locations, Spot};
use vg_base::{NoMemory, Row};
use vg_lin::Operand;
use vg_put_chains::{put_known_number, put_loads, put_moves, put_reach, put_stores};

/// The value at a spot of `width` bytes comes into `count` registers from d on.
pub fn put_fetch(
    code: &mut Row<Instr>,
    spot: Spot,
    width: u8,
    d: u8,
    count: u8,
) -> Result<(), NoMemory>
    requires narrow { width ≤ 4 }
    requires within { IsWithin spot width }
    requires top { d + count ≤ 32 }
    ensures { OnOk result (code.new ≡ code.old ++ fetch (place spot) width d count) }
{
    match spot {
        Spot::Frame(at) => {
            let reached = put_reach(code, at, width)?;
            put_loads(code, reached.base, reached.displacement, d, width, count)
        }
        Spot::Registers(first) => put_moves(code, first, d, width, count),
    }
}

/// The number in `count` registers from r on goes to a spot of `width` bytes.
pub fn put_keep(
    code: &mut Row<Instr>,
    spot: Spot,
    width: u8,
    r: u8,
    count: u8,
) -> Result<(), NoMemory>
    requires narrow { width ≤ 4 }
    requires within { IsWithin spot width }
    requires top { r + count ≤ 32 }
    ensures { OnOk result (code.new ≡ code.old ++ keep (place spot) width r count) }
{
    match spot {
        Spot::Frame(at) => {
            let reached = put_reach(code, at, width)?;
            put_stores(code, reached.base, reached.displacement, r, width, count)
        }
        Spot::Registers(first) => put_moves(code, r, first, count, width),
    }
}

/// The low bytes of an operand's value come into `count` registers from d on, which is at least 16.
pub fn put_brings(
    code: &mut Row<Instr>,
    locations: &Locations,
    operand: Operand,
    d: u8,
    count: u8,
) -> Result<(), NoMemory>
    requires operand { IsThere (layout locations.now) operand }
    requires from { 16 ≤ d }
    requires top { d + count ≤ 32 }
    ensures { OnOk result (code.new ≡ code.old ++ brings (layout locations.now) operand d count) }
{
    match operand {
        Operand::Local(k) => put_fetch(code, locations.spot(k), locations.width(k), d, count),
        Operand::Known(x) => put_known_number(code, d, count, u64::from(x)),
    }
}

/// The number in `count` registers from r on goes to a local.
pub fn put_gives(
    code: &mut Row<Instr>,
    locations: &Locations,
    to: u8,
    r: u8,
    count: u8,
) -> Result<(), NoMemory>
    requires there { to < length locations.now.widths }
    requires top { r + count ≤ 32 }
    ensures { OnOk result (code.new ≡ code.old ++ gives (layout locations.now) to r count) }
{
    put_keep(code, locations.spot(to), locations.width(to), r, count)
}
