// The lines of events.
ghost use Rattle.std.specs.Prelude.{◌≡◌, Some, IfOk};
ghost use Rattle.vg_outlet.specs.Lines.{lines};

use std::alloc::Global;
use vg_base::NoMemory;
use vg_io::{Failed, Sink};
use vg_meaning::Event;
use vg_script::put_event;

/// A sink in memory that grows; it fails where memory is wanting.
#[derive(Drop)]
pub struct LineBuffer {
    bytes: Vec<u8>,
    faults: u64,
}

impl Sink for LineBuffer {
    ghost told = { λ b. Some b.bytes.items };

    ghost faults = { λ b. b.faults };

    fn put(&mut self, piece: &[u8]) -> Result<(), Failed> {
        match self.bytes.extend_from_slice(piece) {
            Ok(()) => Ok(()),
            Err(_) => {
                self.faults = self.faults.saturating_add(1);
                Err(Failed)
            }
        }
    }
}

/// The lines of events.
pub fn lines_of(alloc: Global, events: &[Event]) -> Result<Vec<u8>, NoMemory>
    ensures { IfOk result (λ bytes. bytes.items ≡ lines events.now) }
{
    let mut buffer = LineBuffer {
        bytes: Vec::new(alloc),
        faults: 0,
    };
    for event in events {
        if put_event(*event, &mut buffer).is_err() {
            return Err(NoMemory);
        }
    }
    Ok(buffer.bytes)
}
