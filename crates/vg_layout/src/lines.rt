// The lines of a layout, one by one.
ghost use Rattle.std.specs.Prelude.{◌≡◌, ◌++◌, OnOk, decimal};
ghost use Rattle.vg_layout.specs.Text.{address_text, area_line, home_text, kept_line, live_line, piece_line};

use crate::layout::{Area, Kept, Piece};
use hex::encode_to_slice;
use itoa::Buffer;
use vg_base::{NoMemory, Row};

/// Puts the line of an area behind a text.
pub fn put_area(text: &mut Row<u8>, area: &Area) -> Result<(), NoMemory>
    ensures { OnOk result (text.new ≡ text.old ++ area_line area.now) }
{
    put_home(text, area.is_ram)?;
    put_address(text, area.at)?;
    text.append(b" ")?;
    put_number(text, area.bytes)?;
    text.append(b" ")?;
    text.append(area.what.as_slice())?;
    text.append(b"\n")
}

fn put_home(text: &mut Row<u8>, is_ram: bool) -> Result<(), NoMemory>
    ensures { OnOk result (text.new ≡ text.old ++ home_text is_ram) }
{
    if is_ram {
        text.append(b"ram ")
    } else {
        text.append(b"flash ")
    }
}

/// Puts the line of a class behind a text.
pub fn put_kept(text: &mut Row<u8>, kept: &Kept) -> Result<(), NoMemory>
    ensures { OnOk result (text.new ≡ text.old ++ kept_line kept.now) }
{
    text.append(b"objects ")?;
    text.append(kept.class.as_slice())?;
    text.append(b" ")?;
    put_number(text, kept.count)?;
    text.append(b"\n")
}

/// Puts the line of a live field or method behind a text.
pub fn put_live(text: &mut Row<u8>, name: &[u8]) -> Result<(), NoMemory>
    ensures { OnOk result (text.new ≡ text.old ++ live_line name.now) }
{
    text.append(b"live ")?;
    text.append(name)?;
    text.append(b"\n")
}

/// Puts the line of a piece of code behind a text.
pub fn put_piece(text: &mut Row<u8>, piece: &Piece) -> Result<(), NoMemory>
    ensures { OnOk result (text.new ≡ text.old ++ piece_line piece.now) }
{
    text.append(b"code ")?;
    put_address(text, piece.word)?;
    text.append(b" ")?;
    put_number(text, piece.words)?;
    text.append(b" ")?;
    text.append(piece.name.as_slice())?;
    text.append(b"\n")
}

/// Puts a number in decimal behind a text.
pub fn put_number(text: &mut Row<u8>, number: u32) -> Result<(), NoMemory>
    ensures { OnOk result (text.new ≡ text.old ++ decimal number) }
{
    text.append(Buffer::new().format(number).as_bytes())
}

/// Puts the four digits of an address behind a text.
pub fn put_address(text: &mut Row<u8>, address: u16) -> Result<(), NoMemory>
    ensures { OnOk result (text.new ≡ text.old ++ address_text address) }
{
    let mut digits = [0u8; 4];
    let bytes = [(address / 256) as u8, (address % 256) as u8];
    match encode_to_slice(bytes.as_slice(), &mut digits) {
        Ok(()) => text.append(&digits),
        Err(_) => unreachable!(),
    }
}
