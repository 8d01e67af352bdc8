// Questions about generated texts.
use std::alloc::Global;
use vg_base::NoMemory;
use vg_gen::generate;
use vg_rows_lines::said;

/// Whether the text of this number is the wanted one.
pub fn is_text(alloc: Global, number: u32, wanted: &[u8]) -> Result<String, NoMemory> {
    if number < 1 || number > 500 {
        return said(alloc, "no such number");
    }
    let text = generate(alloc, number)?;
    if text.as_slice() == wanted {
        said(alloc, "same")
    } else {
        said(alloc, "other")
    }
}

/// How many bytes the text of this number has, and their sum by FNV-1a in 32 bits.
pub fn sum_of(alloc: Global, number: u32) -> Result<String, NoMemory> {
    if number < 1 || number > 500 {
        return said(alloc, "no such number");
    }
    let text = generate(alloc, number)?;
    let count = text.len();
    let sum = fnv(text.as_slice());
    Ok(format!(in alloc; "{count} {sum}")?)
}

// The sum of bytes by FNV-1a in 32 bits.
fn fnv(bytes: &[u8]) -> u32 {
    let mut sum = 2_166_136_261u32;
    for byte in bytes {
        sum = (sum ^ u32::from(*byte)).wrapping_mul(16_777_619);
    }
    sum
}
