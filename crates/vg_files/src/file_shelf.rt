// A shelf of the files of the system.
ghost use Rattle.std.specs.Prelude.{◌≡◌, ◌+◌, ◌-◌, ◌^◌, ◌<◌, ◌≤◌, ◌⊎◌, [], None, IfOk, IfSome, length, take};
ghost use Rattle.vg_io.specs.Count.{Rose};

use std::alloc::Global;
use std::fs::{File, Files};
use std::io::Read;
use vg_base::Row;
use vg_io::{Asked, FetchFault, Shelf, note_fetch};

/// The bytes that one read may take.
const CHUNK: usize = 4096;

/// A shelf over the file system. It counts its faults, keeps the list of its fetches, and tells nothing of what the files hold.
#[derive(Drop)]
pub struct FileShelf<'a, R: Files> {
    files: &'a R,
    alloc: Global,
    /// The fetches so far.
    pub asked: Row<Asked>,
    /// How many of them failed.
    pub faults: u64,
}

impl<'a, R: Files> FileShelf<'a, R> {
    /// A shelf that has fetched nothing.
    pub fn new(files: &'a R, alloc: Global) -> Self
        ensures none { result.faults ≡ 0 }
        ensures new { result.asked ≡ [] }
    {
        FileShelf {
            files,
            alloc,
            asked: Row::new(alloc),
            faults: 0,
        }
    }
}

impl<'a, R: Files> Shelf for FileShelf<'a, R> {
    ghost told = { λ _. None };

    ghost faults = { λ s. s.faults };

    ghost asked = { λ s. s.asked };

    fn fetch(&mut self, name: &str, limit: usize) -> Result<Vec<u8>, FetchFault> {
        match read_file(self.files, self.alloc, name, limit) {
            Ok(bytes) => {
                note_fetch(&mut self.asked, self.alloc, name, limit, Some(bytes.len()))?;
                Ok(bytes)
            }
            Err(FetchFault::NoMemory) => Err(FetchFault::NoMemory),
            Err(FetchFault::Failed) => {
                note_fetch(&mut self.asked, self.alloc, name, limit, None)?;
                self.faults = self.faults.saturating_add(1);
                Err(FetchFault::Failed)
            }
        }
    }
}

// The first `limit + 1` bytes of a file, or all of it where it is shorter.
fn read_file<R: Files>(
    files: &R,
    alloc: Global,
    name: &str,
    limit: usize,
) -> Result<Vec<u8>, FetchFault>
    requires { limit < 2 ^ 64 - 1 }
    ensures { IfOk result (λ v. length v.items ≤ limit + 1) }
{
    match File::open(files, name) {
        Ok(mut file) => read_front(&mut file, alloc, limit + 1),
        Err(_) => Err(FetchFault::Failed),
    }
}

// The first so many bytes of a reader, or all where it has fewer, in at most so many turns: each takes at least one byte
// or is the last.
fn read_front<F: Read>(file: &mut F, alloc: Global, most: usize) -> Result<Vec<u8>, FetchFault>
    ensures short { IfOk result (λ v. length v.items ≤ most) }
    ensures front { IfOk result (λ v. IfSome (F.remaining file.old) (λ bytes. v.items ≡ take most bytes)) }
{
    let mut bytes = Vec::new(alloc);
    let mut chunk = [0u8; CHUNK];
    'turns: for _turn in 0..most {
        let room = (most - bytes.len()).min(CHUNK);
        let piece = &mut chunk[..room];
        match file.read(piece) {
            Ok(0) => break,
            Ok(count) => {
                if bytes.extend_from_slice(&piece[..count]).is_err() {
                    return Err(FetchFault::NoMemory);
                }
            }
            Err(_) => return Err(FetchFault::Failed),
        }
    }
    Ok(bytes)
}

#[cfg(test)]
mod tests {
    use super::*;
    use std::test::Fail;

    // An endless device gives one byte more than the limit, an empty one none, and neither a missing file nor a folder gives any.
    #[test]
    fn files_are_read_to_the_limit(rt: HostRuntime) -> Result<(), Fail> {
        let mut shelf = FileShelf::new(&rt, rt.alloc());
        for limit in [0, 5, 10_000] {
            let bytes = shelf.fetch("/dev/zero", limit)?;
            assert_eq!(rt; bytes.len(), limit + 1);
        }
        assert!(rt; shelf.fetch("/dev/null", 5)?.is_empty());
        for name in ["no such file", "/dev"] {
            assert_eq!(rt;
                shelf.fetch(name, 5).err(),
                Some(FetchFault::Failed),
                "{name}"
            );
        }
        assert_eq!(rt; shelf.faults, 2);
        assert_eq!(rt; shelf.asked.len(), 6);
        Ok(())
    }
}
