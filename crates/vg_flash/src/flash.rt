// A flash, and what its layout tells.
use avr_isa::Image;
use vg_base::Row;
use vg_layout::{CodePiece, StackBound};

/// The flash of a text, and what its layout tells.
#[derive(Drop)]
pub struct Flash {
    /// The bytes of the flash.
    pub image: Image,
    /// How much stack is enough for each run.
    pub bound: StackBound,
    /// The word address of the SLEEP at which the program waits for interrupts.
    pub idle: u16,
    /// The pieces of its code.
    pub pieces: Row<CodePiece>,
}

/// The words of an image, at most 65,535.
pub fn words_of(image: &Image) -> u16 {
    let words = image.as_slice().len() / 2;
    words.min(65_535) as u16
}
