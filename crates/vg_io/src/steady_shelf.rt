// A shelf of files in memory that never fails.
ghost use Rattle.std.specs.Prelude.{◌≡◌, ◌<◌, ◌≤◌, ◌+◌, ◌-◌, ◌^◌, [], ◌∷◌, Some, OnOk, OnErr, IfOk, IsErrOf, length, take};
ghost use Rattle.vg_io.specs.Fetch.{asked_after, GivesFront, Records};
ghost use Rattle.vg_io.specs.Files.{bytes_under};
ghost use Rattle.vg_io.specs.InMemory.{SteadyFiles};

use crate::asked::{Asked, note_fetch};
use crate::file::{File, find_file, front_of, set_file};
use crate::shelf::{FetchFault, Shelf};
use std::alloc::Global;
use std::marker::Model;
use vg_base::{NoMemory, Row};

/// A shelf of files in memory that never fails. It tells what it holds, and a name that it does not hold stands for the empty file.
#[derive(Drop)]
pub struct SteadyShelf {
    alloc: Global,
    files: Row<File>,
    asked: Row<Asked>,
}

impl Model for SteadyShelf {
    ghost Value = { SteadyFiles };

    ghost view = { λ s. record { files = s.files; asked = s.asked } };
}

impl SteadyShelf {
    /// A shelf that holds nothing. It takes no memory.
    pub fn new(alloc: Global) -> Self
        ensures { result ≡ record { files = []; asked = [] } }
    {
        SteadyShelf {
            alloc,
            files: Row::new(alloc),
            asked: Row::new(alloc),
        }
    }

    /// Sets one file. A file that was set under this name earlier is there no more.
    pub fn add(&mut self, name: &str, bytes: &[u8]) -> Result<(), NoMemory>
        ensures ok { OnOk result (self.new ≡ record self.old { files = record { name = name.now; bytes = bytes.now } ∷ self.old.files }) }
        ensures err { OnErr result (self.new ≡ self.old) }
    {
        set_file(&mut self.files, self.alloc, name, bytes)
    }
}

impl Shelf for SteadyShelf {
    ghost told = { λ s. Some s.files };

    ghost faults = { λ _. 0 };

    ghost asked = { λ s. s.asked };

    fn fetch(&mut self, name: &str, limit: usize) -> Result<Vec<u8>, FetchFault>
        requires { limit < 2 ^ 64 - 1 }
        ensures told { Some self.new.files ≡ Some self.old.files }
        ensures length { IfOk result (λ v. length v.items ≤ limit + 1) }
        ensures front { IfOk result (λ v. GivesFront (Some self.old.files) name.now limit v.items) }
        ensures asked { Records (λ v. v.items) self.old.asked self.new.asked name.now limit result }
        ensures bytes { IfOk result (λ v. v.items ≡ take (limit + 1) (bytes_under self.old.files name.now)) }
        ensures given { IfOk result (λ v. self.new ≡ record self.old { asked = asked_after self.old.asked name.now limit (Some (length v.items)) }) }
        ensures never { IsErrOf result FetchFault.Failed → ⊥ }
        ensures no_memory { IsErrOf result FetchFault.NoMemory → self.new ≡ self.old }
    {
        let front = match find_file(&self.files, name) {
            Some(bytes) => front_of(self.alloc, bytes, limit)?,
            None => Vec::new(self.alloc),
        };
        note_fetch(&mut self.asked, self.alloc, name, limit, Some(front.len()))?;
        Ok(front)
    }
}
