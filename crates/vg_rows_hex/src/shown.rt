// How the table writes images and faults.
use avr_isa::Image;
use hex::encode;
use std::alloc::Global;
use vg_base::NoMemory;
use vg_hex::HexFault;
use vg_rows_lines::said;

/// An image: the digits of its bytes behind those 0xFF that it begins with, and how many these are.
pub fn shown_image(alloc: Global, image: &Image) -> Result<String, NoMemory> {
    let bytes = image.as_slice();
    let gap = erased_front(bytes);
    let rest = match bytes.get(gap..) {
        Some(rest) => rest,
        None => bytes,
    };
    let digits = encode(alloc, rest)?;
    let digits = digits.as_str();
    Ok(format!(in alloc; "{digits} behind {gap}")?)
}

// How many bytes 0xFF stand in front of the others.
fn erased_front(bytes: &[u8]) -> usize {
    for (index, byte) in bytes.iter().enumerate() {
        if *byte != 0xFF {
            return index;
        }
    }
    bytes.len()
}

/// A fault of a HEX text.
pub fn shown_fault(alloc: Global, fault: HexFault) -> Result<String, NoMemory> {
    Ok(match fault {
        HexFault::Form(line) => format!(in alloc; "form {line}")?,
        HexFault::Sum(line) => format!(in alloc; "sum {line}")?,
        HexFault::Twice(address) => format!(in alloc; "twice {address}")?,
        HexFault::Beyond(address) => format!(in alloc; "beyond {address}")?,
        HexFault::NoEnd => said(alloc, "no end")?,
    })
}
