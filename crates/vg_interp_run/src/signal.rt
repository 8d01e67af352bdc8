// Why code does not go on.
ghost use Rattle.std.specs.Prelude.{◌≡◌};
ghost use Rattle.vg_interp_run.specs.Exits.{told};

use vg_base::NoMemory;

/// Why a piece of code does not go on to the next.
#[derive(Clone, Copy, Debug, PartialEq, Eq)]
pub enum Signal {
    Break,
    Continue,
    /// The value waits.
    Return,
    /// An exception of this code, at this node.
    Stops(u8, u32),
    /// A device read at this address, where no read is left.
    Wants(u8),
    /// A device read or write at this address at initialisation.
    Touches(u8),
    /// No interrupt is left.
    Done,
    OutOfClock,
    OutOfDepth,
    OutOfRoom,
    /// What no well typed program does.
    Wrong,
    NoMemory,
}

impl From<NoMemory> for Signal {
    ghost use Rattle.std.specs.Prelude.{◌≡◌};
    ghost use Rattle.vg_interp_run.specs.declared.signal.Signal.TheVariants.{NoMemory as Memory};

    ghost from_gives = { λ _ e. e ≡ Memory };

    fn from(_: NoMemory) -> Self {
        Signal::NoMemory
    }
}

/// Why a piece of code does not go on to the next, in one byte: what a signal has beside its kind is the cause that the run keeps.
#[derive(Clone, Copy, Debug, PartialEq, Eq)]
pub enum Exit {
    Break,
    Continue,
    /// The value waits.
    Return,
    Stops,
    Wants,
    Touches,
    Done,
    OutOfClock,
    OutOfDepth,
    OutOfRoom,
    Wrong,
    NoMemory,
}

impl From<NoMemory> for Exit {
    ghost use Rattle.std.specs.Prelude.{◌≡◌};
    ghost use Rattle.vg_interp_run.specs.declared.signal.Exit.TheVariants.{NoMemory as Memory};

    ghost from_gives = { λ _ e. e ≡ Memory };

    fn from(_: NoMemory) -> Self {
        Exit::NoMemory
    }
}

/// What a run keeps of its end: the code and the node of an exception, or the address of a device register.
#[derive(Clone, Copy, Debug, PartialEq, Eq)]
pub struct Cause {
    pub code: u8,
    pub at: u32,
    pub address: u8,
}

impl Cause {
    /// The cause of nothing.
    pub fn none() -> Self {
        Cause {
            code: 0,
            at: 0,
            address: 0,
        }
    }

    /// The signal of this kind and cause.
    pub fn signal(&self, why: Exit) -> Signal
        ensures { result ≡ told why self.now }
    {
        match why {
            Exit::Break => Signal::Break,
            Exit::Continue => Signal::Continue,
            Exit::Return => Signal::Return,
            Exit::Stops => Signal::Stops(self.code, self.at),
            Exit::Wants => Signal::Wants(self.address),
            Exit::Touches => Signal::Touches(self.address),
            Exit::Done => Signal::Done,
            Exit::OutOfClock => Signal::OutOfClock,
            Exit::OutOfDepth => Signal::OutOfDepth,
            Exit::OutOfRoom => Signal::OutOfRoom,
            Exit::Wrong => Signal::Wrong,
            Exit::NoMemory => Signal::NoMemory,
        }
    }
}
