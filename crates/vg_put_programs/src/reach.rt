// How far off instructions lead.

/// How far off it is where a jump, a branch or a call leads.
#[derive(Clone, Copy, Debug, PartialEq, Eq)]
pub enum Reach {
    /// At a signed distance of seven bits, in words from behind it.
    Short,
    /// At one of twelve bits.
    Near,
    /// Further off, or it is not known where.
    Far,
}
