// Sums of bytes.
ghost use Rattle.std.specs.Prelude.{◌≡◌, ◌<◌, ◌≤◌, ◌^◌, length};
ghost use Rattle.vg_placement.specs.Columns as columns;

use crate::fields::bytes_of;
use vg_firm::Home;
use vg_placement::Column;

/// The bytes of the columns of a home.
pub fn home_bytes(rows: &[Column], home: Home) -> u64
    requires { length rows.now < 2 ^ 33 }
    ensures { result ≡ columns.home_bytes home rows.now }
{
    let mut sum = 0u64;
    for column in rows {
        sum += u64::from(bytes_where(home, column.home, bytes_of(column)));
    }
    sum
}

/// So many bytes, where a column of the second home stands in the first.
pub fn bytes_where(home: Home, other: Home, bytes: u32) -> u32
    ensures bytes { result ≡ columns.bytes_where home other bytes }
    ensures most { result ≤ bytes }
{
    match home {
        Home::Ram => match other {
            Home::Ram => bytes,
            Home::Flash => 0,
        },
        Home::Flash => match other {
            Home::Ram => 0,
            Home::Flash => bytes,
        },
    }
}
