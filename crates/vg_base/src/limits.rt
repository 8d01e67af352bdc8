// The limits on what goes in.

/// The bytes that a source text may have.
pub const TEXT_LIMIT: usize = 262_144;

/// The bytes of the chip's flash (ATmega128 datasheet, "In-System Reprogrammable Flash Program Memory").
pub const FLASH_BYTES: usize = 131_072;

/// The bytes that a HEX text and a script may have.
pub const IMAGE_TEXT_LIMIT: usize = 1_048_576;
