// Numbers in bytes, and the bytes of numbers.
ghost use Rattle.std.specs.Prelude.{◌≡◌, ◌≤◌, ◌<◌, ◌+◌, ◌^◌, IfSome, Some, None};
ghost use Rattle.vg_lin.specs.Values.{low};
ghost use Rattle.vg_lin.specs.State.{number_at, with_number, first_address, index_of};

use vg_lin::Memory;
use vg_lin_values::values;

/// The low bytes of a value, so many as the width says.
#[tactic(auto, using(crate::proofs::Bytes::whole))]
pub fn low_bytes(width: u8, x: u32) -> u32
    ensures { result ≡ low width x }
{
    if width >= 4 {
        return x;
    }
    values::low(width, u64::from(x))
}

/// The number that so many bytes from an index on stand for, at most four; none where there are not so many.
#[tactic(auto, using(crate::proofs::Bytes::number_step, crate::proofs::Bytes::number_none))]
pub fn number_at(bytes: &[u8], width: u8, index: usize) -> Option<u32>
    requires width { width ≤ 4 }
    requires index { index + width < 2 ^ 64 }
    ensures is { result ≡ number_at bytes.now width index }
    ensures below { IfSome result (λ n. n < 256 ^ width) }
{
    if width == 0 {
        return Some(0);
    }
    match (bytes.get(index), number_at(bytes, width - 1, index + 1)) {
        (Some(byte), Some(above)) => Some(u32::from(*byte) + 256 * above),
        _ => None,
    }
}

/// Puts the low bytes of a number at an index and behind it, so many as the width says. Where there are not so many, the others are lost.
#[tactic(auto, using(crate::proofs::Bytes::put_step, crate::proofs::Bytes::put_none))]
pub fn put_number(bytes: &mut [u8], width: u8, index: usize, x: u32)
    requires { index + width < 2 ^ 64 }
    ensures { bytes.new ≡ with_number bytes.old width index x }
{
    if width == 0 {
        return;
    }
    if index < bytes.len() {
        bytes[index] = (x % 256) as u8;
    }
    put_number(bytes, width - 1, index + 1, x / 256);
}

/// The index of an address among the bytes of columns or tables, where it is the address of one.
pub fn index_of(memory: Memory, base: u16, index: u32) -> Option<usize>
    ensures is { result ≡ index_of memory (base + index) }
    ensures few { IfSome result (λ i. i < 2 ^ 33) }
{
    let address = usize::from(base) + index as usize;
    let first = match memory {
        Memory::Ram => 0x0100,
        Memory::Flash => 0x008C,
    };
    if address < first {
        return None;
    }
    Some(address - first)
}
