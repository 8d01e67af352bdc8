// The flash of a program of constants.
ghost use Rattle.std.specs.Prelude.{◌≤◌, length, IfOk};
ghost use Rattle.vg_first_text.specs.FirstSession.{AreDevices};
ghost use Rattle.vg_flash.specs.Flashes.{IsFlashOfWrites, WrittenBy};

use crate::flash::{Flash, words_of};
use std::alloc::Global;
use vg_base::{NoMemory, Refusal, Row};
use vg_faults::Fault;
use vg_first_image::image_of;
use vg_first_text::DeviceWrite;
use vg_fits::Fitted;
use vg_layout::{CodePiece, StackBound, Whose};

/// The flash of writes, with a stack of so many bytes. Four bytes of stack are enough: an interrupt returns at once, and is taken where nothing waits.
pub fn written(
    alloc: Global,
    writes: &[DeviceWrite],
    fitted: &Fitted,
    stack: u16,
) -> Result<Flash, Refusal<Fault>>
    requires devices { AreDevices writes.now }
    requires few { length writes.now ≤ 100 }
    ensures { WrittenBy writes.now stack result }
{
    if stack < 4 {
        return Err(Refusal::Fault(Fault::StackFull {
            need: 4,
            left: u32::from(stack),
        }));
    }
    match flash_of_writes(alloc, writes, fitted.alive.start.program.main) {
        Ok(flash) => Ok(flash),
        Err(NoMemory) => Err(Refusal::NoMemory),
    }
}

// The flash of the writes that main makes.
fn flash_of_writes(alloc: Global, writes: &[DeviceWrite], main: u16) -> Result<Flash, NoMemory>
    requires devices { AreDevices writes.now }
    requires few { length writes.now ≤ 100 }
    ensures { IfOk result (IsFlashOfWrites writes.now) }
{
    let image = image_of(alloc, writes)?;
    let end = words_of(&image);
    let pieces = written_pieces(alloc, main, end)?;
    Ok(Flash {
        image,
        bound: StackBound::Bytes(4),
        idle: end.saturating_sub(3),
        pieces,
    })
}

// Its pieces of code, which end at a word address: the stack is set, main writes, and the last four words wait.
fn written_pieces(alloc: Global, main: u16, end: u16) -> Result<Row<CodePiece>, NoMemory> {
    let mut pieces = Row::new(alloc);
    pieces.push(CodePiece {
        whose: Whose::Start,
        word: 70,
    })?;
    pieces.push(CodePiece {
        whose: Whose::Method(main),
        word: 74,
    })?;
    pieces.push(CodePiece {
        whose: Whose::Idle,
        word: end.saturating_sub(4),
    })?;
    Ok(pieces)
}
