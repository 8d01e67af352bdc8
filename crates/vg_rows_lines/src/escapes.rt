// The bytes that a field of a table spells.
use std::alloc::Global;
use vg_base::NoMemory;

/// The bytes of a field. Behind a backslash stand `n`, `r` or `t` as in Rust; `b` for a backslash; `x41;` for a byte; and `<62:(>` for a piece that is
/// repeated so often.
pub fn spelled(alloc: Global, field: &str) -> Result<Vec<u8>, NoMemory> {
    let mut out = Vec::new(alloc);
    for (index, piece) in field.split('\\').enumerate() {
        if index == 0 {
            out.extend_from_slice(piece.as_bytes())?;
        } else {
            put_escape(&mut out, piece)?;
        }
    }
    Ok(out)
}

// Puts what stands behind a backslash.
fn put_escape(out: &mut Vec<u8>, piece: &str) -> Result<(), NoMemory> {
    if let Some(rest) = piece.strip_prefix('<') {
        return put_repeated(out, rest);
    }
    if let Some(rest) = piece.strip_prefix('x') {
        return put_byte(out, rest);
    }
    let Some((letter, rest)) = piece.as_bytes().split_first() else {
        return Ok(());
    };
    let byte = match *letter {
        b'n' => b'\n',
        b'r' => b'\r',
        b't' => b'\t',
        _ => b'\\',
    };
    out.push(byte)?;
    out.extend_from_slice(rest)?;
    Ok(())
}

// Puts a byte by its hexadecimal digits, up to a semicolon, and what stands behind it.
fn put_byte(out: &mut Vec<u8>, piece: &str) -> Result<(), NoMemory> {
    let Some((digits, rest)) = piece.split_once(';') else {
        return Ok(());
    };
    let Ok(byte) = u8::from_str_radix(digits, 16) else {
        return Ok(());
    };
    out.push(byte)?;
    out.extend_from_slice(rest.as_bytes())?;
    Ok(())
}

// Puts a count of pieces, up to a greater sign, and what stands behind it.
fn put_repeated(out: &mut Vec<u8>, piece: &str) -> Result<(), NoMemory> {
    let Some((count, piece)) = piece.split_once(':') else {
        return Ok(());
    };
    let Some((repeated, rest)) = piece.split_once('>') else {
        return Ok(());
    };
    let count = count.parse::<u32>().unwrap_or(0);
    for _ in 0..count {
        out.extend_from_slice(repeated.as_bytes())?;
    }
    out.extend_from_slice(rest.as_bytes())?;
    Ok(())
}
