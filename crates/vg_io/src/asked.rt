// What a shelf was asked for.
ghost use Rattle.std.specs.Prelude.{◌≡◌, OnOk, OnErr};
ghost use Rattle.vg_io.specs.Fetch.{asked_after};

use std::alloc::Global;
use vg_base::{NoMemory, Row};

/// One fetch: the name and the limit in bytes that it was made with, and how many bytes were given, or `None` where it failed.
#[derive(Drop)]
pub struct Asked {
    pub name: Row<u8>,
    pub limit: usize,
    pub given: Option<usize>,
}

/// Notes one more fetch behind the others.
pub fn note_fetch(
    fetches: &mut Row<Asked>,
    alloc: Global,
    name: &str,
    limit: usize,
    given: Option<usize>,
) -> Result<(), NoMemory>
    ensures ok { OnOk result (fetches.new ≡ asked_after fetches.old name.now limit given) }
    ensures err { OnErr result (fetches.new ≡ fetches.old) }
{
    let name = Row::from_slice(alloc, name.as_bytes())?;
    fetches.push(Asked { name, limit, given })
}
