// How a call ends.
ghost use Rattle.std.specs.Prelude.{◌≡◌};

use vg_faults::Fault;
use vg_hex::HexFault;

/// How a call of the program ends.
#[derive(Drop)]
pub enum Status {
    /// All was put. The session of `run` idles and the machine of `sim` and of `try` sleeps, and no interrupt is left.
    Done,
    /// The source text was refused.
    Refused(Fault),
    /// The words have no meaning.
    Usage,
    /// The shelf failed to give a file, and its count of faults rose.
    ReadFault,
    /// A sink failed to take a piece, and its count of faults rose.
    WriteFault,
    /// Want of memory.
    NoMemory,
    /// A file has more bytes than its limit.
    TooLong,
    /// The session or the machine has stopped, with this code.
    Stopped(u8),
    /// It reads the device register at this data address, and no read is left.
    Wants(u8),
    /// `run`: a tick was due, and as many were spent as were allowed. `sim` and `try`: as many instructions ran, and none of them ended the run.
    Budget,
    /// The session has opened a 401st active call.
    Depth,
    /// The HEX text has this fault, its first.
    HexRefused(HexFault),
    /// The line of this number, from 1 on, is the script's first that is none.
    ScriptRefused(u32),
    /// At this word address stands this word, which is no instruction or touches a data address that it must not.
    BadInstruction { pc: u16, word: u16 },
}

impl Status {
    ghost use Rattle.vg_status.specs.Statuses.{code_of};

    /// The exit status of the program, from 0. It takes no memory.
    pub fn code(&self) -> u8
        ensures { result ≡ code_of self.now }
    {
        match self {
            Status::Done => 0,
            Status::Refused(_) => 1,
            Status::Usage => 2,
            Status::ReadFault => 3,
            Status::WriteFault => 4,
            Status::NoMemory => 5,
            Status::TooLong => 6,
            Status::Stopped(_) => 7,
            Status::Wants(_) => 8,
            Status::Budget => 9,
            Status::Depth => 10,
            Status::HexRefused(_) => 11,
            Status::ScriptRefused(_) => 12,
            Status::BadInstruction { .. } => 13,
        }
    }
}
