// A shelf of files.
ghost use Rattle.std.specs.Prelude.{◌≡◌, ℕ, ◌+◌, ◌-◌, ◌^◌, ◌<◌, ◌≤◌, List, length, Option, IfOk, IsErrOf};

use vg_base::NoMemory;

/// Why a fetch gave nothing.
#[derive(Clone, Copy, Debug, PartialEq, Eq)]
pub enum FetchFault {
    /// The shelf could not give the file. Its count of faults rose.
    Failed,
    /// Want of memory. The shelf keeps no note of this fetch.
    NoMemory,
}

impl From<NoMemory> for FetchFault {
    ghost use Rattle.std.specs.Prelude.{◌≡◌};
    ghost use Rattle.vg_io.specs.declared.shelf.FetchFault.TheVariants.{NoMemory as Memory};

    ghost from_gives = { λ _ e. e ≡ Memory };

    fn from(_: NoMemory) -> Self {
        FetchFault::NoMemory
    }
}

/// A place that gives files by name.
pub trait Shelf {
    ghost use Rattle.vg_io.specs.Count.{Rose};
    ghost use Rattle.vg_io.specs.Fetch.{GivesFront, Records};
    ghost use Rattle.vg_io.specs.declared.asked.Asked.{Asked};
    ghost use Rattle.vg_io.specs.declared.file.File.{File};

    /// The files of the shelf, where it tells what it holds. A name without a file stands for the empty file.
    ghost told: { Self → Option (List File) };

    /// How often the shelf has failed.
    ghost faults: { Self → ℕ };

    /// The fetches so far, but for those that found no memory.
    ghost asked: { Self → List Asked };

    /// The first `limit + 1` bytes of the file of this name, or the whole file where it is shorter.
    /// So a caller sees by the length whether the file has more than `limit` bytes.
    fn fetch(&mut self, name: &str, limit: usize) -> Result<Vec<u8>, FetchFault>
        requires { limit < 2 ^ 64 - 1 }
        ensures told { told self.new ≡ told self.old }
        ensures length { IfOk result (λ v. length v.items ≤ limit + 1) }
        ensures front { IfOk result (λ v. GivesFront (told self.old) name.now limit v.items) }
        ensures later { faults self.old ≤ faults self.new }
        ensures cause { IsErrOf result FetchFault.Failed → Rose (faults self.old) (faults self.new) }
        ensures asked { Records (λ v. v.items) (asked self.old) (asked self.new) name.now limit result };
}
