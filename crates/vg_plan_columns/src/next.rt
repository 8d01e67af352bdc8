// Columns are counted in their homes.
ghost use Rattle.std.specs.Prelude.{◌≡◌, ◌<◌, Some, length, slice_get};
ghost use Rattle.vg_placement.specs.Columns as columns;

use vg_firm::Home;
use vg_placement::Column;

/// The column at a place of these.
pub fn column_at(columns: &[Column], place: usize) -> Column
    requires { place < length columns.now }
    ensures { slice_get columns.now place ≡ Some result }
{
    columns[place]
}

/// The place of the next column of a home, where so many stand in RAM before it, and so many in flash.
pub fn place_in(home: Home, ram: u16, flash: u16) -> u16
    ensures { result ≡ columns.address_for home ram flash }
{
    match home {
        Home::Ram => ram,
        Home::Flash => flash,
    }
}

/// How many columns stand in RAM behind one of this home.
pub fn ram_next(home: Home, ram: u16) -> u16
    requires { ram < 65535 }
    ensures { result ≡ columns.ram_behind home ram 1 }
{
    match home {
        Home::Ram => ram + 1,
        Home::Flash => ram,
    }
}

/// How many columns stand in flash behind one of this home.
pub fn flash_next(home: Home, flash: u16) -> u16
    requires { flash < 65535 }
    ensures { result ≡ columns.flash_behind home flash 1 }
{
    match home {
        Home::Ram => flash,
        Home::Flash => flash + 1,
    }
}
