// The flash of a text that fits.
ghost use Rattle.std.specs.Prelude.{◌≡◌, ◌+◌, ◌<◌, ◌≤◌, length};
ghost use Rattle.vg_base.specs.Limits.{text_limit};
ghost use Rattle.vg_text_image.specs.Made.{CanCompile};
ghost use Rattle.vg_build.specs.Mirrors.{CompiledBy, FlashBy};

use std::alloc::Global;
use vg_base::{Place, Refusal};
use vg_faults::Fault;
use vg_first_text::read_first;
use vg_fits::Fitted;
use vg_flash::{Flash, written};
use vg_text_image::{TextImage, Unmade, image_of};

// The flash of a program of constants, or else that of what fits, with a stack of so many bytes.
pub fn flash_of(
    alloc: Global,
    text: &[u8],
    fitted: &Fitted,
    stack: u16,
) -> Result<Flash, Refusal<Fault>>
    requires short { length text.now ≤ text_limit }
    requires given { CanCompile fitted.now }
    ensures { FlashBy text.now fitted.now stack result }
{
    match read_first(alloc, text) {
        Ok(writes) => written(alloc, writes.as_slice(), fitted, stack),
        Err(Refusal::Fault(_)) => compiled(alloc, fitted, stack),
        Err(Refusal::NoMemory) => Err(Refusal::NoMemory),
    }
}

// The flash of what fits.
fn compiled(alloc: Global, fitted: &Fitted, stack: u16) -> Result<Flash, Refusal<Fault>>
    requires { CanCompile fitted.now }
    ensures { CompiledBy fitted.now stack result }
{
    match image_of(alloc, fitted, stack) {
        Ok(made) => Ok(flashed(made)),
        Err(Refusal::Fault(Unmade::CodeFull { words })) => {
            Err(Refusal::Fault(Fault::CodeFull { words }))
        }
        Err(Refusal::Fault(Unmade::StackFull { need })) => {
            Err(Refusal::Fault(Fault::StackFull {
                need,
                left: u32::from(stack),
            }))
        }
        Err(Refusal::Fault(Unmade::NotLinear)) => {
            Err(Refusal::Fault(Fault::NotBuilt(Place { line: 1, col: 1 })))
        }
        Err(Refusal::Fault(Unmade::NotBuilt)) => {
            Err(Refusal::Fault(Fault::NotBuilt(Place { line: 1, col: 1 })))
        }
        Err(Refusal::NoMemory) => Err(Refusal::NoMemory),
    }
}

// The SLEEP is the second word of the piece in which the program waits.
fn flashed(made: TextImage) -> Flash
    ensures image { result.image ≡ made.flash }
    ensures bound { result.bound ≡ made.bound }
    ensures idle { made.idle + 1 < 65536 → result.idle ≡ made.idle + 1 }
{
    let TextImage {
        flash,
        static_bytes: _,
        bound,
        idle,
        pieces,
    } = made;
    Flash {
        image: flash,
        bound,
        idle: idle.saturating_add(1),
        pieces,
    }
}
