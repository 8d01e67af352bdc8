// How many bytes of the stack a procedure takes.
ghost use Rattle.std.specs.Prelude.{◌≡◌, ◌+◌, ◌^◌, ◌<◌, ◌≤◌, IfOk, IfSome, IsSome, Some, length};
ghost use Rattle.vg_frame_costs.specs.Bytes.{procedure_bytes};

use crate::waiting::most_kept;
use std::alloc::Global;
use vg_alloc::{Locations, frames};
use vg_base::NoMemory;
use vg_lin::LinProc;

/// How many bytes of the stack a procedure takes at most while it is open, by its layout, with its parameters that were pushed and what is kept in it. There
/// are none where more than 65,535 values may wait in it at one time, as they never do where its code has no more instructions, and where they do not fit into
/// 32 bits.
pub fn size_of(alloc: Global, procedure: &LinProc) -> Result<Option<u32>, NoMemory>
    ensures size { IfOk result (λ size. IfSome size (λ bytes. bytes ≡ procedure_bytes procedure.now)) }
    ensures there { length procedure.now.code ≤ 65535 → procedure_bytes procedure.now < 2 ^ 32
        → IfOk result (λ size. size ≡ Some (procedure_bytes procedure.now)) }
{
    let kept = match most_kept(alloc, procedure.code())? {
        Some(kept) => kept,
        None => return Ok(None),
    };
    let frame = frames(alloc, procedure)?;
    Ok(size_by(&frame, kept))
}

// The bytes by a frame, where so many are kept at most.
fn size_by(frame: &Locations, kept: u32) -> Option<u32>
    ensures size { IfSome result (λ bytes. bytes ≡ 2 + length frame.now.saved + frame.now.slots + frame.now.pushed + kept) }
    ensures there { length frame.now.saved ≤ 32 → 2 + length frame.now.saved + frame.now.slots + frame.now.pushed + kept < 2 ^ 32 → IsSome result }
{
    let saved = frame.saved().len();
    if saved > 32 {
        return None;
    }
    let own = 2 + saved as u32 + u32::from(frame.slots()) + u32::from(frame.pushed());
    own.checked_add(kept)
}
