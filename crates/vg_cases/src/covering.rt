// Whether cases cover others.
ghost use Rattle.std.specs.Prelude.{◌≡◌, ◌+◌, IsTrue};
ghost use Rattle.vg_cases.specs.Fewer.{Covers, covers, has_all, is_covered, overlap};

use vg_codes::Case;

/// Whether the new cases have, for each number for which the old ones have a procedure, the same one, as far as single cases show it: of each old case
/// the first new one that shares a number with it has all its numbers, and its procedure.
pub fn covers(new: &[Case], old: &[Case]) -> bool
    ensures exactly { result ≡ covers new.now old.now }
    ensures covers { IsTrue result → Covers old.now new.now }
{
    for case in old {
        if !is_covered(new, *case) {
            return false;
        }
    }
    true
}

// Whether the first case that shares a number with a case has all of them.
fn is_covered(new: &[Case], case: Case) -> bool
    ensures { result ≡ is_covered new.now case }
{
    for one in new {
        if overlap(case, *one) {
            return has_all(*one, case);
        }
    }
    case.count == 0
}

// Whether two cases share a number.
fn overlap(case: Case, other: Case) -> bool
    ensures { result ≡ overlap case other }
{
    u32::from(other.first) < end(case) && u32::from(case.first) < end(other)
}

// Whether a case has all numbers of another one, and its procedure.
fn has_all(one: Case, case: Case) -> bool
    ensures { result ≡ has_all one case }
{
    one.first <= case.first && end(case) <= end(one) && one.procedure == case.procedure
}

// The number behind the last one of a case.
fn end(case: Case) -> u32
    ensures { result ≡ case.first + case.count }
{
    u32::from(case.first) + u32::from(case.count)
}
