// One file, and two files one behind the other.
ghost use Rattle.std.specs.Prelude.{◌≡◌, ◌-◌, ◌^◌, ◌<◌, ◌≤◌, ◌⊎◌, [], ◌∷◌, ℕ, length, IfOk, IsErrOf};
ghost use Rattle.vg_io.specs.Count.{Rose};
ghost use Rattle.vg_fetch.specs.Asking.{Fetched, Request, reason_of};
ghost use Rattle.vg_fetch.specs.Told.{ForFile, ForFiles};
ghost use Rattle.vg_fetch.specs.Outcomes.{OutcomeOf};

use vg_io::{FetchFault, Shelf};

/// Why a file is missing.
#[derive(Clone, Copy, Debug, PartialEq, Eq)]
pub enum NoFile {
    /// The shelf failed to give it, and its count of faults rose.
    Failed,
    /// Want of memory.
    Wanting,
    /// It has more bytes than its limit.
    Long,
}

/// The file of this name, whole, where it has at most `limit` bytes.
pub fn fetch_file<S: Shelf>(shelf: &mut S, name: &str, limit: usize) -> Result<Vec<u8>, NoFile>
    requires { limit < 2 ^ 64 - 1 }
    ensures short { IfOk result (λ v. length v.items ≤ limit) }
    ensures whole { IfOk result (λ v. ForFile (S.told shelf.old) name.now (λ bytes. bytes ≡ v.items)) }
    ensures long { IsErrOf result NoFile.Long → ForFile (S.told shelf.old) name.now (λ bytes. limit < length bytes) }
    ensures told { S.told shelf.new ≡ S.told shelf.old }
    ensures cause { IsErrOf result NoFile.Failed → Rose (S.faults shelf.old) (S.faults shelf.new) }
    ensures later { S.faults shelf.old ≤ S.faults shelf.new }
    ensures asked { Fetched (reason_of result) (S.asked shelf.old) (S.asked shelf.new) (record { name = name.now; limit = limit } ∷ []) }
{
    fetch_within(shelf, name, limit)
}

// The same, with what the shelf notes.
fn fetch_within<S: Shelf>(shelf: &mut S, name: &str, limit: usize) -> Result<Vec<u8>, NoFile>
    requires { limit < 2 ^ 64 - 1 }
    ensures short { IfOk result (λ v. length v.items ≤ limit) }
    ensures whole { IfOk result (λ v. ForFile (S.told shelf.old) name.now (λ bytes. bytes ≡ v.items)) }
    ensures long { IsErrOf result NoFile.Long → ForFile (S.told shelf.old) name.now (λ bytes. limit < length bytes) }
    ensures told { S.told shelf.new ≡ S.told shelf.old }
    ensures cause { IsErrOf result NoFile.Failed → Rose (S.faults shelf.old) (S.faults shelf.new) }
    ensures later { S.faults shelf.old ≤ S.faults shelf.new }
    ensures asked { OutcomeOf (reason_of result) (S.asked shelf.old) (S.asked shelf.new) name.now limit }
{
    match shelf.fetch(name, limit) {
        Ok(bytes) => {
            if bytes.len() > limit {
                return Err(NoFile::Long);
            }
            Ok(bytes)
        }
        Err(FetchFault::Failed) => Err(NoFile::Failed),
        Err(FetchFault::NoMemory) => Err(NoFile::Wanting),
    }
}

/// Two files, whole, where each has at most as many bytes as its limit. The second is fetched where the first was given so.
pub fn fetch_two<S: Shelf>(
    shelf: &mut S,
    first: &str,
    first_limit: usize,
    second: &str,
    second_limit: usize,
) -> Result<(Vec<u8>, Vec<u8>), NoFile>
    requires first { first_limit < 2 ^ 64 - 1 }
    requires second { second_limit < 2 ^ 64 - 1 }
    ensures short { IfOk result (λ v. (length v.0.items ≤ first_limit) × (length v.1.items ≤ second_limit)) }
    ensures whole { IfOk result (λ v. ForFiles (S.told shelf.old) first.now second.now (λ a b. (a ≡ v.0.items) × (b ≡ v.1.items))) }
    ensures long { IsErrOf result NoFile.Long
        → ForFiles (S.told shelf.old) first.now second.now (λ a b. (first_limit < length a) ⊎ (second_limit < length b)) }
    ensures told { S.told shelf.new ≡ S.told shelf.old }
    ensures cause { IsErrOf result NoFile.Failed → Rose (S.faults shelf.old) (S.faults shelf.new) }
    ensures later { S.faults shelf.old ≤ S.faults shelf.new }
    ensures asked { Fetched (reason_of result) (S.asked shelf.old) (S.asked shelf.new)
        (record { name = first.now; limit = first_limit } ∷ record { name = second.now; limit = second_limit } ∷ []) }
{
    match fetch_within(shelf, first, first_limit) {
        Err(reason) => Err(reason),
        Ok(front) => match fetch_within(shelf, second, second_limit) {
            Err(reason) => Err(reason),
            Ok(behind) => Ok((front, behind)),
        },
    }
}
