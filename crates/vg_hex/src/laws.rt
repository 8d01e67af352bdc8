// Laws of the texts of images.
ghost use Rattle.std.specs.Prelude.{◌≡◌, ◌≤◌, ◌<◌, ℕ, List, length, IfOk};
ghost use Rattle.std.specs.List.{AllByRecursion};
ghost use Rattle.vg_base.specs.Limits.{flash_bytes};
ghost use Rattle.vg_hex.specs.HexText.{hex_text};
ghost use Rattle.vg_hex.specs.HexImage.{HexImage};

use crate::fault::HexRefusal;
use crate::reader::read;
use crate::writer::write;
use avr_isa::Image;
use std::alloc::Global;
use vg_base::NoMemory;

/// The text that is written for an image is read as that image.
pub fn read_again()
    ensures { (image : List ℕ) → length image ≤ flash_bytes → AllByRecursion (λ b. b < 256) image → HexImage (hex_text image) image }
{}

/// A text is read as one image at most.
pub fn one_image()
    ensures { (text a b : List ℕ) → HexImage text a → HexImage text b → a ≡ b }
{}

/// An image, written and read again: the same image, and no fault.
pub fn write_and_read(alloc: Global, image: &Image) -> Result<Image, NoMemory>
    ensures { IfOk result (λ again. again ≡ image.now) }
{
    let text = write(alloc, image)?;
    match read(alloc, text.as_slice()) {
        Ok(again) => Ok(again),
        Err(HexRefusal::NoMemory) => Err(NoMemory),
        Err(HexRefusal::Fault(_)) => unreachable!(),
    }
}
