// What goes out of a run.
ghost use Rattle.std.specs.Prelude.{◌≡◌, ◌+◌, ◌<◌, ◌≤◌, false, OnOk, length};
ghost use Rattle.vg_outlet.specs.Puts.{moment, PutsOf};

use crate::lines::lines_of;
use std::alloc::Global;
use vg_base::NoMemory;
use vg_io::Sink;
use vg_meaning::Event;

// So many events go to the sink in one put, some 4 KB of lines.
const CHUNK: usize = 512;

/// Of how many events of a run the lines were put, and whether a put has failed. Once one has, no more is put.
#[derive(Drop)]
pub struct Outlet {
    alloc: Global,
    pub put: usize,
    pub failed: bool,
}

impl Outlet {
    /// Nothing was put. It takes no memory.
    pub fn new(alloc: Global) -> Self
        ensures put { result.put ≡ 0 }
        ensures failed { result.failed ≡ false }
    {
        Outlet {
            alloc,
            put: 0,
            failed: false,
        }
    }

    /// Takes the events of a run so far. Where 512 of them wait, or more, their lines are put, 512 in one put. It is an error as well where a put fails.
    #[inline(always)]
    #[tactic(auto, using(crate::proofs::Puts::between))]
    pub fn offer<O: Sink>(&mut self, events: &[Event], sink: &mut O) -> Result<(), NoMemory>
        ensures puts { PutsOf (moment (O.told sink.old) (O.faults sink.old) self.old) (moment (O.told sink.new) (O.faults sink.new) self.new) events.now }
        ensures few { OnOk result (length events.now < self.new.put + 512) }
    {
        if events.len().saturating_sub(self.put) < CHUNK {
            return Ok(());
        }
        self.put_many(events, sink)
    }

    // Puts the lines of 512 events, as long as so many wait.
    #[inline(never)]
    #[tactic(auto, using(crate::proofs::Puts::between))]
    fn put_many<O: Sink>(&mut self, events: &[Event], sink: &mut O) -> Result<(), NoMemory>
        ensures puts { PutsOf (moment (O.told sink.old) (O.faults sink.old) self.old) (moment (O.told sink.new) (O.faults sink.new) self.new) events.now }
        ensures few { OnOk result (length events.now < self.new.put + 512) }
    {
        while events.len().saturating_sub(self.put) >= CHUNK {
            let end = self.put + CHUNK;
            self.put_up_to(events, end, sink)?;
        }
        Ok(())
    }

    /// Puts the lines of all events of a run that wait. It is an error as well where a put fails.
    #[tactic(auto, using(crate::proofs::Puts::between))]
    pub fn put_all<O: Sink>(&mut self, events: &[Event], sink: &mut O) -> Result<(), NoMemory>
        ensures puts { PutsOf (moment (O.told sink.old) (O.faults sink.old) self.old) (moment (O.told sink.new) (O.faults sink.new) self.new) events.now }
        ensures all { OnOk result (length events.now ≤ self.new.put) }
        ensures well { OnOk result (self.new.failed ≡ false) }
    {
        self.put_many(events, sink)?;
        if self.put < events.len() {
            return self.put_up_to(events, events.len(), sink);
        }
        if self.failed {
            return Err(NoMemory);
        }
        Ok(())
    }

    // Puts the lines of the events that wait up to this number, in one put.
    #[tactic(auto, using(crate::proofs::Puts::between))]
    fn put_up_to<O: Sink>(
        &mut self,
        events: &[Event],
        end: usize,
        sink: &mut O,
    ) -> Result<(), NoMemory>
        requires order { self.old.put ≤ end }
        requires within { end ≤ length events.now }
        ensures puts { PutsOf (moment (O.told sink.old) (O.faults sink.old) self.old) (moment (O.told sink.new) (O.faults sink.new) self.new) events.now }
        ensures all { OnOk result (self.new.put ≡ end) }
        ensures well { OnOk result (self.new.failed ≡ false) }
    {
        if self.failed {
            return Err(NoMemory);
        }
        let bytes = lines_of(self.alloc, &events[self.put..end])?;
        match sink.put(bytes.as_slice()) {
            Ok(()) => {
                self.put = end;
                Ok(())
            }
            Err(_) => {
                self.failed = true;
                Err(NoMemory)
            }
        }
    }
}
