// The image.
ghost use Rattle.std.specs.Prelude.{◌≡◌, ◌≤◌, ◌+◌, ℕ, length, IfOk};
ghost use Rattle.avr_isa.specs.Agrees.{Agrees, NeverReaches};
ghost use Rattle.vg_first_text.specs.FirstSession.{AreDevices, first_session};

use crate::code::{put, put_idle, put_slots, put_start, put_writes};
use avr_instr::Instr;
use avr_isa::Image;
use std::alloc::Global;
use vg_base::NoMemory;
use vg_first_text::DeviceWrite;

// The word address behind the 35 vectors, of two words each: that of reset and those of the interrupts.
const START: u16 = 70;

/// The image that makes the writes in their order and then waits for interrupts for ever.
///
/// There are at most 100 writes. Each of the 34 interrupts has a slot that returns at once, so a stack of two bytes is enough: its
/// floor is the data address of its lowest byte. The error is want of memory.
pub fn image_of(alloc: Global, writes: &[DeviceWrite]) -> Result<Image, NoMemory>
    requires devices { AreDevices writes.now }
    requires short { length writes.now ≤ 100 }
    ensures agrees { IfOk result (λ image. (floor stack : ℕ) → floor + stack ≡ 0x1100 → 2 ≤ stack → Agrees (first_session writes.now) image floor stack) }
    ensures never { IfOk result (λ image. (floor stack : ℕ) → floor + stack ≡ 0x1100 → 2 ≤ stack → NeverReaches image floor) }
{
    let mut code = Vec::new(alloc);
    put(&mut code, Instr::Jmp(START))?;
    put_slots(&mut code)?;
    put_start(&mut code)?;
    put_writes(&mut code, writes)?;
    put_idle(&mut code)?;
    Ok(Image::from_vec(code))
}
