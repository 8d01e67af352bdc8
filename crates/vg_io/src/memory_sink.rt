// A sink in memory with a fixed room, of which one put may be set to fail.
ghost use Rattle.std.specs.Prelude.{◌≡◌, ℕ, ◌≤◌, ◌+◌, ◌-◌, ◌++◌, [], Some, None, IfOk, OnOk, OnErr, take, is_err, vec_len, vec_capacity};
ghost use Rattle.vg_io.specs.Count.{Rose};
ghost use Rattle.vg_io.specs.InMemory.{MemoryBytes, after_put, count_taken, is_set, put_fails, wanted};

use crate::sink::{Failed, Sink};
use std::alloc::Global;
use std::marker::Model;
use vg_base::NoMemory;

/// A sink in memory with a fixed room. It tells what it took, and fails where it was told to or where a piece does not fit.
#[derive(Drop)]
pub struct MemorySink {
    taken: Vec<u8>,
    room: usize,
    puts: u64,
    failing: Option<(u32, usize)>,
    faults: u64,
}

impl Model for MemorySink {
    ghost Value = { MemoryBytes };

    ghost view = { λ s. record { taken = s.taken.items; room = s.room; puts = s.puts; failing = s.failing; faults = s.faults } };

    ghost invariant = { λ s. (s.room ≤ vec_capacity s.taken) × (vec_len s.taken ≤ s.room) };
}

impl MemorySink {
    /// A sink that holds nothing and has room for so many bytes. All its memory is reserved here.
    pub fn with_room(alloc: Global, room: usize) -> Result<Self, NoMemory>
        ensures { IfOk result (λ s. s ≡ record { taken = []; room = room; puts = 0; failing = None; faults = 0 }) }
    {
        Ok(MemorySink {
            taken: Vec::with_capacity(alloc, room)?,
            room,
            puts: 0,
            failing: None,
            faults: 0,
        })
    }

    /// Sets the one put that fails, by its number from 0: it takes the first `kept` bytes of its piece, or the whole piece where that is shorter.
    /// It takes no memory.
    pub fn fail_on(&mut self, call: u32, kept: usize)
        ensures { self.new ≡ record self.old { failing = Some (call, kept) } }
    {
        self.failing = Some((call, kept));
    }

    /// What was put. It takes no memory.
    pub fn bytes(&self) -> &[u8]
        ensures { result.now ≡ self.now.taken }
    {
        self.taken.as_slice()
    }

    // Whether the next put is the one that is set to fail.
    fn is_set(&self) -> bool
        ensures { result ≡ is_set self.now.failing self.now.puts }
    {
        match self.failing {
            Some((call, _)) => u64::from(call) == self.puts,
            None => false,
        }
    }

    // How many bytes of a piece of this length the failing rule lets through.
    fn wanted(&self, len: usize) -> usize
        ensures { result ≡ wanted self.now.failing self.now.puts len }
    {
        match self.failing {
            Some((call, kept)) if u64::from(call) == self.puts => kept.min(len),
            _ => len,
        }
    }
}

impl Sink for MemorySink {
    ghost told = { λ s. Some s.taken };

    ghost faults = { λ s. s.faults };

    fn put(&mut self, piece: &[u8]) -> Result<(), Failed>
        ensures ok { OnOk result (self.new.taken ≡ self.old.taken ++ piece.now) }
        ensures failed { OnErr result ((kept : ℕ) × (Some self.new.taken ≡ Some (self.old.taken ++ take kept piece.now))) }
        ensures later { self.old.faults ≤ self.new.faults }
        ensures cause { OnErr result (Rose self.old.faults self.new.faults) }
        ensures fails { is_err result ≡ put_fails self.old piece.now }
        ensures after { self.new ≡ after_put self.old piece.now }
    {
        let free = self.room - self.taken.len();
        let count = self.wanted(piece.len()).min(free);
        let fails = self.is_set() || piece.len() > free;
        self.puts = self.puts.saturating_add(1);
        match self.taken.extend_from_slice(&piece[..count]) {
            Ok(()) => {
                if fails {
                    self.faults = self.faults.saturating_add(1);
                    return Err(Failed);
                }
                Ok(())
            }
            Err(_) => unreachable!(),
        }
    }
}
