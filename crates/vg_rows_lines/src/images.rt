// The images that fields of the tables spell.
ghost use Rattle.std.specs.Prelude.{◌≤◌, IfOk, IfSome, length};
ghost use Rattle.vg_base.specs.Limits.{flash_bytes};

use hex::{FromHexError, decode};
use std::alloc::Global;
use vg_base::{FLASH_BYTES, NoMemory};

/// The bytes of an image: words of hexadecimal digits, where a word that is repeated stands behind a count and a star. None where a word spells no bytes,
/// and where there are more than the flash has.
pub fn image_bytes(alloc: Global, field: &str) -> Result<Option<Vec<u8>>, NoMemory>
    ensures { IfOk result (λ found. IfSome found (λ v. length v.items ≤ flash_bytes)) }
{
    match hex_bytes(alloc, field)? {
        Some(bytes) if bytes.len() <= FLASH_BYTES => Ok(Some(bytes)),
        _ => Ok(None),
    }
}

// The bytes of words of hexadecimal digits.
fn hex_bytes(alloc: Global, field: &str) -> Result<Option<Vec<u8>>, NoMemory> {
    let mut bytes = Vec::new(alloc);
    for word in field.split_whitespace() {
        let (count, digits) = word.split_once('*').unwrap_or(("1", word));
        let Ok(count) = count.parse::<u32>() else {
            return Ok(None);
        };
        let piece = match decode(alloc, digits) {
            Ok(piece) => piece,
            Err(FromHexError::OutOfMemory) => return Err(NoMemory),
            Err(_) => return Ok(None),
        };
        for _ in 0..count {
            bytes.extend_from_slice(piece.as_slice())?;
        }
    }
    Ok(Some(bytes))
}
