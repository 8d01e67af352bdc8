// Why a text has no image.

/// Why there is no image of a text that fits.
#[derive(Clone, Copy, Debug, PartialEq, Eq)]
pub enum Unmade {
    /// It would take so many words of flash, which are more than 65,535: the last word stays free.
    CodeFull { words: u32 },
    /// The dearest way of its calls needs so many bytes of stack, and it has fewer.
    StackFull { need: u32 },
    /// What is packed of it has no linear code.
    NotLinear,
    /// A procedure takes more of the stack than its method costs, or that of a handler receives something, even where no procedure is trimmed.
    NotBuilt,
}
