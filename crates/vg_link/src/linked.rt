// What linking makes.
use vg_base::Row;

/// The flash of an image, and where what it holds stands.
#[derive(Drop)]
pub struct Linked {
    /// The bytes of the flash, from the byte address 0 on, two for each word.
    pub flash: Row<u8>,
    /// The code number of each procedure: the word address of its entry.
    pub codes: Row<u16>,
    /// The word address of the piece of code in which the program waits for interrupts. Its SLEEP is the second word.
    pub idle: u16,
}

/// The image would take more than 65,535 words of flash.
#[derive(Clone, Copy, Debug, PartialEq, Eq)]
pub struct CodeFull {
    /// How many words it would take.
    pub words: u32,
}
