// The lines of a HEX text.
ghost use Rattle.std.specs.Prelude.{◌≡◌, ◌<◌, ◌≤◌, ◌+◌, ◌*◌, ◌%◌, ◌==◌, ℕ, List, [], ◌∷◌, ◌++◌, length, take, sum, IfOk};
ghost use Rattle.hex.specs.Hex.{decode_of};
ghost use Rattle.vg_hex.specs.HexRecords.{number_in, from_bytes, from_digits, read_line, summed, typed};

use hex::{FromHexError, decode};
use std::alloc::Global;
use vg_base::{NoMemory, Row};

/// The digits of the longest record: four bytes, 255 of data, and the check byte.
const MOST_DIGITS: usize = 520;

/// What the last base line said of the addresses behind it (Intel HEX, types 02 and 04).
#[derive(Clone, Copy, Debug, PartialEq, Eq)]
pub enum Base {
    /// No base line came yet: an address is the record's, plus the byte's index.
    Unset,
    /// Type 02, a segment: 16 times this number, plus the record's address and the byte's index, those two modulo 65,536.
    Segment(u16),
    /// Type 04: 65,536 times this number, plus the record's address and the byte's index.
    Linear(u16),
}

/// What a line is: a record, or none.
#[derive(Drop)]
pub enum HexRecord {
    /// An empty line.
    Blank,
    /// Type 00: these bytes, from this address on.
    Data(u16, Row<u8>),
    /// Type 02 or 04.
    Base(Base),
    /// Type 01: the end.
    End,
    /// Type 03 or 05, which say where a program starts: passed over.
    Passed,
    /// A record but for its check byte.
    NoSum,
    /// Any other line.
    NoForm,
}

/// What a line without its end is.
pub fn read_line(alloc: Global, line: &[u8]) -> Result<HexRecord, NoMemory>
    ensures { IfOk result (λ made. made ≡ read_line line.now) }
{
    match line {
        [] => Ok(HexRecord::Blank),
        [b':', digits @ ..] => from_digits(alloc, digits),
        _ => Ok(HexRecord::NoForm),
    }
}

// What the digits behind a colon are.
fn from_digits(alloc: Global, digits: &[u8]) -> Result<HexRecord, NoMemory>
    ensures { IfOk result (λ made. made ≡ from_digits (decode_of digits.now)) }
{
    if digits.len() > MOST_DIGITS {
        return Ok(HexRecord::NoForm);
    }
    match decode(alloc, digits) {
        Ok(bytes) => from_bytes(alloc, bytes.as_slice()),
        Err(FromHexError::OutOfMemory) => Err(NoMemory),
        Err(_) => Ok(HexRecord::NoForm),
    }
}

// What the bytes of a record are.
fn from_bytes(alloc: Global, bytes: &[u8]) -> Result<HexRecord, NoMemory>
    ensures { IfOk result (λ made. made ≡ from_bytes bytes.now) }
{
    match bytes {
        [count, high, low, kind, rest @ ..] => {
            let data = *count as usize;
            if rest.len() != data + 1 {
                return Ok(HexRecord::NoForm);
            }
            let made = typed(
                alloc,
                *high as u16 * 256 + *low as u16,
                *kind,
                &rest[..data],
            )?;
            Ok(summed(bytes, made))
        }
        _ => Ok(HexRecord::NoForm),
    }
}

// A record of this address, type and data bytes.
fn typed(alloc: Global, at: u16, kind: u8, body: &[u8]) -> Result<HexRecord, NoMemory>
    ensures { IfOk result (λ made. made ≡ typed (length body.now) at kind body.now) }
{
    match kind {
        0 => Ok(HexRecord::Data(at, Row::from_slice(alloc, body)?)),
        1 if body.is_empty() => Ok(HexRecord::End),
        2 => match body {
            [high, low] => Ok(HexRecord::Base(Base::Segment(*high as u16 * 256 + *low as u16))),
            _ => Ok(HexRecord::NoForm),
        },
        4 => match body {
            [high, low] => Ok(HexRecord::Base(Base::Linear(*high as u16 * 256 + *low as u16))),
            _ => Ok(HexRecord::NoForm),
        },
        3 | 5 => Ok(HexRecord::Passed),
        _ => Ok(HexRecord::NoForm),
    }
}

// A record, unless the sum of its bytes is wrong.
fn summed(bytes: &[u8], made: HexRecord) -> HexRecord
    ensures { result ≡ summed (sum bytes.now % 256 == 0) made }
{
    if total(bytes) == 0 {
        return made;
    }
    match made {
        HexRecord::NoForm => HexRecord::NoForm,
        _ => HexRecord::NoSum,
    }
}

// The sum of bytes modulo 256.
fn total(bytes: &[u8]) -> u8
    ensures { result ≡ sum bytes.now % 256 }
{
    let mut total = 0u8;
    for b in bytes {
        total = total.wrapping_add(*b);
    }
    total
}
