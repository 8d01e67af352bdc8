// Where values that go to locals are made: in the registers of the local, or in scratch ones.
ghost use Rattle.std.specs.Prelude.{◌≡◌, ◌≤◌, ◌<◌, ◌+◌, ◌++◌, OnOk, length};
ghost use Rattle.vg_templates.specs.Layouts.{width_of};
ghost use Rattle.vg_templates.specs.Homes.{clear_home, home, home_of, is_clear, made_in, settles};
ghost use Rattle.vg_alloc.specs.Locations.{layout, place, IsWithin};
ghost use Rattle.vg_put_values.specs.Within.{IsHome};

use crate::operands::put_gives;
use avr_instr::Instr;
use vg_alloc::{Locations, Spot};
use vg_base::{NoMemory, Row};
use vg_put_chains::put_clears;

fn home(spot: Spot, width: u8, count: u8) -> Option<u8>
    requires within { IsWithin spot width }
    requires few { count ≤ 4 }
    ensures home { result ≡ home (place spot) width count }
    ensures within { IsHome result width count }
    ensures low { made_in result + count ≤ 26 }
{
    match spot {
        Spot::Frame(_) => None,
        Spot::Registers(first) if count <= width => Some(first),
        Spot::Registers(_) => None,
    }
}

/// The first register of a local in registers that takes so many bytes.
pub fn home_of(locations: &Locations, to: u8, count: u8) -> Option<u8>
    requires there { to < length locations.now.widths }
    requires few { count ≤ 4 }
    ensures home { result ≡ home_of (layout locations.now) to count }
    ensures within { IsHome result (width_of (layout locations.now) to) count }
    ensures low { made_in result + count ≤ 26 }
{
    home(locations.spot(to), locations.width(to), count)
}

/// Whether no byte of a spot is in so many registers from one on.
pub fn is_clear(spot: Spot, width: u8, first: u8, count: u8) -> bool
    requires within { IsWithin spot width }
    requires low { first + count ≤ 26 }
    ensures { result ≡ is_clear (place spot) width first count }
{
    match spot {
        Spot::Frame(_) => true,
        Spot::Registers(r) => r + width <= first || first + count <= r,
    }
}

fn clear_home(home: Option<u8>, most: u8, count: u8, spot: Spot, width: u8) -> Option<u8>
    requires few { count ≤ 4 }
    requires within { IsWithin spot width }
    requires home { IsHome home most count }
    ensures home { result ≡ clear_home (place spot) width count home }
    ensures within { IsHome result most count }
    ensures low { made_in result + count ≤ 26 }
{
    match home {
        None => None,
        Some(first) if is_clear(spot, width, first, count) => Some(first),
        Some(_) => None,
    }
}

/// The first register of a local in registers that takes so many bytes, where these are none of a spot of some width.
pub fn clear_home_of(locations: &Locations, to: u8, count: u8, spot: Spot, width: u8) -> Option<u8>
    requires there { to < length locations.now.widths }
    requires few { count ≤ 4 }
    requires within { IsWithin spot width }
    ensures home { result ≡ clear_home (place spot) width count (home_of (layout locations.now) to count) }
    ensures within { IsHome result (width_of (layout locations.now) to) count }
    ensures low { made_in result + count ≤ 26 }
{
    let home = home_of(locations, to, count);
    clear_home(home, locations.width(to), count, spot, width)
}

/// The first register in which a value is made.
pub fn made_in(home: Option<u8>) -> u8
    ensures { result ≡ made_in home }
{
    match home {
        None => 22,
        Some(first) => first,
    }
}

/// What is left to do once a number of so many bytes was made: it goes to the local, or zeros come behind it there.
pub fn put_settles(
    code: &mut Row<Instr>,
    locations: &Locations,
    to: u8,
    home: Option<u8>,
    count: u8,
) -> Result<(), NoMemory>
    requires there { to < length locations.now.widths }
    requires few { count ≤ 4 }
    requires home { IsHome home (width_of (layout locations.now) to) count }
    ensures { OnOk result (code.new ≡ code.old ++ settles (layout locations.now) to home count) }
{
    match home {
        None => put_gives(code, locations, to, 22, count),
        Some(first) => put_clears(code, first + count, locations.width(to) - count),
    }
}
