// Files by name.
ghost use Rattle.std.specs.Prelude.{◌≡◌, ◌+◌, ◌-◌, ◌^◌, ◌<◌, ◌∷◌, OnOk, OnErr, IfOk, option_map, take};
ghost use Rattle.vg_io.specs.Files.{file_under};

use std::alloc::Global;
use vg_base::{NoMemory, Row};

/// A file: its name and its bytes.
#[derive(Drop)]
pub struct File {
    pub name: Row<u8>,
    pub bytes: Row<u8>,
}

/// Sets the file of this name: it stands before one that was set earlier. Of two files with one name the first counts.
pub fn set_file(
    files: &mut Row<File>,
    alloc: Global,
    name: &str,
    bytes: &[u8],
) -> Result<(), NoMemory>
    ensures ok { OnOk result (files.new ≡ record { name = name.now; bytes = bytes.now } ∷ files.old) }
    ensures err { OnErr result (files.new ≡ files.old) }
{
    let name = Row::from_slice(alloc, name.as_bytes())?;
    let bytes = Row::from_slice(alloc, bytes)?;
    files.insert(0, File { name, bytes })
}

/// The bytes of the file of this name, or `None` where there is none. It takes no memory.
pub fn find_file<'a>(files: &'a Row<File>, name: &str) -> Option<&'a [u8]>
    ensures { option_map (λ bytes. bytes.now) result ≡ file_under files.entry.now name.now }
{
    for file in files.as_slice() {
        if file.name.as_slice() == name.as_bytes() {
            return Some(file.bytes.as_slice());
        }
    }
    None
}

/// A copy of the first `limit + 1` of these bytes, or of all of them where they are fewer.
pub fn front_of(alloc: Global, bytes: &[u8], limit: usize) -> Result<Vec<u8>, NoMemory>
    requires { limit < 2 ^ 64 - 1 }
    ensures { IfOk result (λ v. v.items ≡ take (limit + 1) bytes.now) }
{
    let count = if bytes.len() <= limit {
        bytes.len()
    } else {
        limit + 1
    };
    Ok(Vec::from_slice(alloc, &bytes[..count])?)
}
