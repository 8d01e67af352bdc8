// Why a text is no HEX text of an image.
use vg_base::NoMemory;

/// The first fault of a HEX text, in the order of its lines.
#[derive(Clone, Copy, Debug, PartialEq, Eq)]
pub enum HexFault {
    /// The line of this number, from 1 on, is no record, or is not empty and stands behind the end line.
    Form(u32),
    /// The line of this number, from 1 on, would be a record if its last byte were another.
    Sum(u32),
    /// A data byte has this byte address, and so has an earlier one.
    Twice(u32),
    /// A data byte has this byte address, and the flash ends below it, at 131,072.
    Beyond(u32),
    /// No line ends the text.
    NoEnd,
}

/// Why a HEX text gave no image.
#[derive(Clone, Copy, Debug, PartialEq, Eq)]
pub enum HexRefusal {
    /// The text has this fault.
    Fault(HexFault),
    /// Want of memory.
    NoMemory,
}

impl From<NoMemory> for HexRefusal {
    ghost use Rattle.std.specs.Prelude.{◌≡◌};
    ghost use Rattle.vg_hex.specs.declared.fault.HexRefusal.TheVariants.{NoMemory as Memory};

    ghost from_gives = { λ _ e. e ≡ Memory };

    fn from(_: NoMemory) -> Self {
        HexRefusal::NoMemory
    }
}
