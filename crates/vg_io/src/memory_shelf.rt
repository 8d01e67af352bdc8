// A shelf of files in memory, of which fetches may be set to fail.
ghost use Rattle.std.specs.Prelude.{◌≡◌, ◌==◌, ◌<◌, ◌≤◌, ◌+◌, ◌-◌, ◌^◌, ◌++◌, [], ◌∷◌, Bool, true, false, Some, None, OnOk, OnErr, IfOk, IsErrOf, length, take};
ghost use Rattle.std.specs.List.{list_any};
ghost use Rattle.vg_io.specs.Count.{Rose};
ghost use Rattle.vg_io.specs.Fetch.{GivesFront, Records};
ghost use Rattle.vg_io.specs.Files.{bytes_under};
ghost use Rattle.vg_io.specs.InMemory.{MemoryFiles, after_failed, after_given, fetch_fails};

use crate::asked::{Asked, note_fetch};
use crate::file::{File, find_file, front_of, set_file};
use crate::shelf::{FetchFault, Shelf};
use std::alloc::Global;
use std::marker::Model;
use vg_base::{NoMemory, Row};

/// A shelf of files in memory. It tells what it holds, counts a missing name as a fault, and fails where it was told to.
#[derive(Drop)]
pub struct MemoryShelf {
    alloc: Global,
    files: Row<File>,
    failing: Vec<u32>,
    asked: Row<Asked>,
    faults: u64,
}

impl Model for MemoryShelf {
    ghost Value = { MemoryFiles };

    ghost view = { λ s. record { files = s.files; failing = s.failing.items; asked = s.asked; faults = s.faults } };
}

impl MemoryShelf {
    /// A shelf that holds nothing and lists no failure. It takes no memory.
    pub fn new(alloc: Global) -> Self
        ensures { result ≡ record { files = []; failing = []; asked = []; faults = 0 } }
    {
        MemoryShelf {
            alloc,
            files: Row::new(alloc),
            failing: Vec::new(alloc),
            asked: Row::new(alloc),
            faults: 0,
        }
    }

    /// Sets one file. A file that was set under this name earlier is there no more.
    pub fn add(&mut self, name: &str, bytes: &[u8]) -> Result<(), NoMemory>
        ensures ok { OnOk result (self.new ≡ record self.old { files = record { name = name.now; bytes = bytes.now } ∷ self.old.files }) }
        ensures err { OnErr result (self.new ≡ self.old) }
    {
        set_file(&mut self.files, self.alloc, name, bytes)
    }

    /// Lists the fetch of this number to fail. The first fetch of a shelf has the number 0.
    pub fn fail_on(&mut self, call: u32) -> Result<(), NoMemory>
        ensures ok { OnOk result (self.new ≡ record self.old { failing = self.old.failing ++ call ∷ [] }) }
        ensures err { OnErr result (self.new ≡ self.old) }
    {
        self.failing.push(call)?;
        Ok(())
    }

    // Whether the next fetch is listed to fail.
    fn is_listed(&self) -> bool
        ensures { result ≡ list_any (λ call. call == length self.now.asked) self.now.failing }
    {
        let number = self.asked.len() as u64;
        self.failing.iter().any(|call| u64::from(*call) == number)
    }
}

impl Shelf for MemoryShelf {
    ghost told = { λ s. Some s.files };

    ghost faults = { λ s. s.faults };

    ghost asked = { λ s. s.asked };

    fn fetch(&mut self, name: &str, limit: usize) -> Result<Vec<u8>, FetchFault>
        requires { limit < 2 ^ 64 - 1 }
        ensures told { Some self.new.files ≡ Some self.old.files }
        ensures length { IfOk result (λ v. length v.items ≤ limit + 1) }
        ensures front { IfOk result (λ v. GivesFront (Some self.old.files) name.now limit v.items) }
        ensures later { self.old.faults ≤ self.new.faults }
        ensures cause { IsErrOf result FetchFault.Failed → Rose self.old.faults self.new.faults }
        ensures asked { Records (λ v. v.items) self.old.asked self.new.asked name.now limit result }
        ensures gives { IfOk result (λ v. fetch_fails self.old name.now ≡ false) }
        ensures bytes { IfOk result (λ v. v.items ≡ take (limit + 1) (bytes_under self.old.files name.now)) }
        ensures given { IfOk result (λ v. self.new ≡ after_given self.old name.now limit (length v.items)) }
        ensures fails { IsErrOf result FetchFault.Failed → fetch_fails self.old name.now ≡ true }
        ensures failed { IsErrOf result FetchFault.Failed → self.new ≡ after_failed self.old name.now limit }
        ensures no_memory { IsErrOf result FetchFault.NoMemory → self.new ≡ self.old }
    {
        let found = if self.is_listed() {
            None
        } else {
            find_file(&self.files, name)
        };
        match found {
            Some(bytes) => {
                let front = front_of(self.alloc, bytes, limit)?;
                note_fetch(&mut self.asked, self.alloc, name, limit, Some(front.len()))?;
                Ok(front)
            }
            None => {
                note_fetch(&mut self.asked, self.alloc, name, limit, None)?;
                self.faults = self.faults.saturating_add(1);
                Err(FetchFault::Failed)
            }
        }
    }
}
