// How the answers of tables are written.
use std::alloc::Global;
use vg_base::NoMemory;

/// Words that were made with no memory wanting.
pub fn said(alloc: Global, words: &str) -> Result<String, NoMemory> {
    Ok(String::from_str(alloc, words)?)
}

/// A text, with `\n` for LF and `\r` for CR.
pub fn shown_text(alloc: Global, bytes: &[u8]) -> Result<String, NoMemory> {
    let mut text = String::new(alloc);
    for byte in bytes {
        match *byte {
            b'\n' => text.push_str("\\n")?,
            b'\r' => text.push_str("\\r")?,
            other => text.push(char::from(other))?,
        }
    }
    Ok(text)
}
