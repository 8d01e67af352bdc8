// Bytes, the low ones first.
ghost use Rattle.std.specs.Prelude.{◌≡◌, ◌++◌, OnOk};
ghost use Rattle.vg_tables.specs.Bytes.{array_bytes, delegate_bytes, entry_bytes, low_bytes};

use crate::datum::Datum;
use crate::entry::Entry;
use vg_base::{NoMemory, Row};
use vg_firm::ArrayPlace;

/// Puts the bytes of an entry of so many bytes behind others. A delegate has four.
pub fn put_entry(bytes: &mut Row<Datum>, width: u8, entry: Entry) -> Result<(), NoMemory>
    ensures { OnOk result (bytes.new ≡ bytes.old ++ entry_bytes width entry) }
{
    match entry {
        Entry::Number(number) => put_number(bytes, width, number),
        Entry::Delegate(procedure, receiver) => put_delegate(bytes, procedure, receiver),
    }
}

/// Puts the four bytes of an array behind others: its place and its length, two bytes each.
pub fn put_array(bytes: &mut Row<Datum>, array: ArrayPlace) -> Result<(), NoMemory>
    ensures { OnOk result (bytes.new ≡ bytes.old ++ array_bytes array) }
{
    put_number(bytes, 2, u32::from(array.address))?;
    put_number(bytes, 2, u32::from(array.length))
}

// So many bytes of a number.
fn put_number(bytes: &mut Row<Datum>, width: u8, number: u32) -> Result<(), NoMemory>
    ensures { OnOk result (bytes.new ≡ bytes.old ++ low_bytes width number) }
{
    let mut rest = number;
    for _place in 0..width {
        bytes.push(Datum::Byte((rest % 256) as u8))?;
        rest = rest / 256;
    }
    Ok(())
}

// The code number of a procedure, then the number of the receiver.
fn put_delegate(bytes: &mut Row<Datum>, procedure: u16, receiver: u16) -> Result<(), NoMemory>
    ensures { OnOk result (bytes.new ≡ bytes.old ++ delegate_bytes procedure receiver) }
{
    bytes.push(Datum::CodeLow(procedure))?;
    bytes.push(Datum::CodeHigh(procedure))?;
    put_number(bytes, 2, u32::from(receiver))
}
