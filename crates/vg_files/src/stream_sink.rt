// A sink that writes to a stream of the system.
ghost use Rattle.std.specs.Prelude.{◌≡◌, ◌+◌, ◌-◌, ◌^◌, ◌<◌, ◌≤◌, ◌⊎◌, None, IsTrue, OnOk, OnErr};
ghost use Rattle.std.specs.Io.KnownBytes.{Appends};
ghost use Rattle.vg_io.specs.Count.{Rose};
ghost use Rattle.vg_io.specs.Piece.{AppendsAll, AppendsFront};

use std::io::Write;
use vg_io::{Failed, Sink};

/// A sink over a writer. It counts its faults, and tells nothing of what the stream holds.
#[derive(Drop)]
pub struct StreamSink<W: Write> {
    pub stream: W,
    /// How many puts failed.
    pub faults: u64,
}

impl<W: Write> StreamSink<W> {
    /// A sink that has put nothing.
    pub fn new(stream: W) -> Self
        ensures { result.faults ≡ 0 }
    {
        StreamSink { stream, faults: 0 }
    }
}

impl<W: Write> Sink for StreamSink<W> {
    ghost told = { λ _. None };

    ghost faults = { λ s. s.faults };

    fn put(&mut self, piece: &[u8]) -> Result<(), Failed>
        ensures ok { OnOk result (AppendsAll None None piece.now) }
        ensures failed { OnErr result (AppendsFront None None piece.now) }
        ensures later { self.old.faults ≤ self.new.faults }
        ensures cause { OnErr result (Rose self.old.faults self.new.faults) }
        ensures through { OnOk result (Appends (W.contents self.old.stream) (W.contents self.new.stream) piece.now) }
    {
        if is_written(&mut self.stream, piece) {
            return Ok(());
        }
        self.faults = self.faults.saturating_add(1);
        Err(Failed)
    }
}

// Writes a piece in at most as many turns as it has bytes, and says whether all of it went through. A write that takes
// nothing is a failure, and so is a flush that fails behind the last.
fn is_written<W: Write>(stream: &mut W, piece: &[u8]) -> bool
    ensures { IsTrue result → Appends (W.contents stream.old) (W.contents stream.new) piece.now }
{
    let mut rest = piece;
    'turns: for _turn in 0..piece.len() {
        if rest.is_empty() {
            break;
        }
        match stream.write(rest) {
            Ok(0) | Err(_) => return false,
            Ok(count) => rest = &rest[count..],
        }
    }
    if !rest.is_empty() {
        return false;
    }
    stream.flush().is_ok()
}

#[cfg(test)]
mod tests {
    use super::*;
    use std::fs::OpenOptions;
    use std::io;
    use std::test::Fail;

    // A writer that takes two bytes at a time, and nothing once it is full.
    #[derive(Drop)]
    struct Narrow {
        room: usize,
    }

    impl Write for Narrow {
        fn write(&mut self, buf: &[u8]) -> io::Result<usize> {
            let count = buf.len().min(self.room).min(2);
            self.room -= count;
            Ok(count)
        }

        fn flush(&mut self) -> io::Result<()> {
            Ok(())
        }
    }

    #[test]
    fn pieces_go_through_whole(rt: HostRuntime) {
        for (room, whole) in [(4, false), (5, true), (6, true)] {
            let mut sink = StreamSink::new(Narrow { room });
            assert_eq!(rt; sink.put(b"abcde").is_ok(), whole, "room for {room}");
            assert_eq!(rt; sink.faults, u64::from(!whole), "room for {room}");
        }
    }

    #[test]
    fn a_full_device_is_a_fault(rt: HostRuntime) -> Result<(), Fail> {
        for (device, whole) in [("/dev/null", true), ("/dev/full", false)] {
            let file = OpenOptions::new().write(true).open(&rt, device)?;
            let mut sink = StreamSink::new(file);
            assert_eq!(rt; sink.put(b"abcde").is_ok(), whole, "{device}");
            assert_eq!(rt; sink.faults, u64::from(!whole), "{device}");
        }
        Ok(())
    }
}
