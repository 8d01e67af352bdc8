// Why there is no image.
use vg_flatten_shapes::Fault;
use vg_link::CodeFull;

/// Why a program has no image.
#[derive(Clone, Copy, Debug, PartialEq, Eq)]
pub enum NoImage {
    /// It has no linear code: a procedure is not taken, or there are too many instructions or procedures.
    NotLinear(Fault),
    /// The procedure of a handler receives something: an argument is pushed for it, or it keeps one that arrives in a register.
    Received,
    /// A procedure takes more of the stack than the method costs that it is; and where calls do not go round, they need more than each way of them costs.
    Costly,
    /// The dearest way of its calls needs so many bytes of stack, and it has fewer.
    Deep { need: u32 },
    /// It takes more words of flash than there are.
    Full(CodeFull),
}
