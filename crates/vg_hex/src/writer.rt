// The text of an image.
ghost use Rattle.std.specs.Prelude.{◌≡◌, ◌≤◌, ◌<◌, ◌++◌, ◌+◌, ◌*◌, ◌%◌, ◌/◌, ◌==◌, List, [], ◌∷◌, length, take, drop, IfOk, OnOk, if◌then◌else◌};
ghost use Rattle.std.specs.List.{AllByRecursion};
ghost use Rattle.vg_base.specs.Limits.{flash_bytes, image_text_limit};
ghost use Rattle.vg_hex.specs.HexImage.{HexImage};
ghost use Rattle.vg_hex.specs.HexText.{hex_text, records, data_line, base_line, check_of};

use avr_isa::Image;
use hex::encode_upper;
use std::alloc::Global;
use vg_base::{NoMemory, Row};

/// The bytes of a whole record.
const RECORD_BYTES: usize = 16;

/// The HEX text of an image: records of 16 bytes from address 0, a base line at 65,536, and the end line (Intel HEX).
///
/// Its digits are upper case and its lines end with LF.
pub fn write(alloc: Global, image: &Image) -> Result<Row<u8>, NoMemory>
    ensures text { IfOk result (λ text. text ≡ hex_text image.now) }
    ensures read { IfOk result (λ text. HexImage text image.now) }
    ensures short { IfOk result (λ text. length text ≤ image_text_limit) }
{
    let mut text = Row::new(alloc);
    let bytes = image.as_slice();
    put_records(alloc, &mut text, bytes)?;
    text.append(b":00000001FF\n")?;
    Ok(text)
}

// The records of the bytes of an image.
fn put_records(alloc: Global, text: &mut Row<u8>, bytes: &[u8]) -> Result<(), NoMemory>
    requires { length bytes.now ≤ flash_bytes }
    ensures text { OnOk result (text.new ≡ text.old ++ records ((length bytes.now + 15) / 16) 0 bytes.now) }
    ensures small { AllByRecursion (λ b. b < 256) bytes.now }
{
    let count = bytes.len().div_ceil(RECORD_BYTES);
    for k in 0..count {
        let at = k * RECORD_BYTES;
        put_base(text, at)?;
        put_data(alloc, text, at % 65_536, piece_at(bytes, at))?;
    }
    Ok(())
}

// The base line, where the second 64 KiB begin.
fn put_base(text: &mut Row<u8>, at: usize) -> Result<(), NoMemory>
    ensures { OnOk result (text.new ≡ text.old ++ (if at == 65536 then base_line ++ 10 ∷ [] else [])) }
{
    if at == 65_536 {
        text.append(b":020000040001F9\n")
    } else {
        Ok(())
    }
}

// The bytes of one record, from an address on.
fn piece_at(bytes: &[u8], at: usize) -> &[u8]
    requires { at ≤ length bytes.now }
    ensures value { result.now ≡ take 16 (drop at bytes.entry.now) }
    ensures short { length result.now ≤ 16 }
{
    let rest = &bytes[at..];
    if rest.len() <= RECORD_BYTES {
        rest
    } else {
        &rest[..RECORD_BYTES]
    }
}

// A line of data.
fn put_data(alloc: Global, text: &mut Row<u8>, at: usize, bytes: &[u8]) -> Result<(), NoMemory>
    requires place { at < 65536 }
    requires short { length bytes.now ≤ 16 }
    ensures { OnOk result (text.new ≡ text.old ++ (data_line at bytes.now ++ 10 ∷ [])) }
{
    let head = [bytes.len() as u8, (at / 256) as u8, (at % 256) as u8, 0];
    let mut body = Row::from_slice(alloc, &head)?;
    body.append(bytes)?;
    body.push(check_of(body.as_slice()))?;
    text.append(b":")?;
    text.append(encode_upper(alloc, body.as_slice())?.as_bytes())?;
    text.append(b"\n")
}

// The byte that makes the sum of a record 0 modulo 256.
fn check_of(body: &[u8]) -> u8
    ensures { result ≡ check_of body.now }
{
    let mut total = 0u8;
    for b in body {
        total = total.wrapping_add(*b);
    }
    0u8.wrapping_sub(total)
}
