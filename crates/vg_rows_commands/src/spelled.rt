// How bytes are spelled in a line.
use std::alloc::Global;
use vg_base::{NoMemory, Row};

/// The bytes that a word spells: `\n`, `\r` and `\t` as in Rust, `\s` a space, `\e` nothing, `\\` a backslash; none where a backslash stands
/// before another byte.
pub fn spelled(alloc: Global, word: &str) -> Result<Option<Row<u8>>, NoMemory> {
    let mut text = Row::new(alloc);
    let mut escaped = false;
    for byte in word.as_bytes() {
        if escaped {
            escaped = false;
            match meant(*byte) {
                Some(Some(byte)) => text.push(byte)?,
                Some(None) => {}
                None => return Ok(None),
            }
        } else if *byte == b'\\' {
            escaped = true;
        } else {
            text.push(*byte)?;
        }
    }
    if escaped {
        return Ok(None);
    }
    Ok(Some(text))
}

// The byte that a letter behind a backslash means, or that it means none.
fn meant(letter: u8) -> Option<Option<u8>> {
    match letter {
        b'n' => Some(Some(b'\n')),
        b'r' => Some(Some(b'\r')),
        b't' => Some(Some(b'\t')),
        b's' => Some(Some(b' ')),
        b'\\' => Some(Some(b'\\')),
        b'e' => Some(None),
        _ => None,
    }
}
