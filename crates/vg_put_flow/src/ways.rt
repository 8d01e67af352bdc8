// How code gets to other code.
use avr_instr::{FarOffset, NearOffset};

/// How a jump gets to another place.
#[derive(Clone, Copy)]
pub enum Hop {
    /// By a signed distance of twelve bits, in words from behind the jump.
    Near(FarOffset),
    /// To a word address.
    Far(u16),
}

/// How a branch gets to another place.
#[derive(Clone, Copy)]
pub enum Turn {
    /// By a signed distance of seven bits, in words from behind the branch.
    Direct(NearOffset),
    /// By a jump, past which a branch leads where the test says otherwise.
    Past(Hop),
}

/// How a procedure is called.
#[derive(Clone, Copy)]
pub enum Way {
    /// By a signed distance of twelve bits, in words from behind the call.
    Near(FarOffset),
    /// At a word address.
    Far(u16),
    /// At the word address in Z.
    ByZ,
}
