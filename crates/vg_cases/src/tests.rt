// Cases and what becomes of them, worked by hand.
use crate::fewer;
use std::alloc::Global;
use vg_base::NoMemory;
use vg_codes::Case;

// Cases of so many numbers from the first on, with their procedure.
const fn case(first: u16, count: u16, procedure: u16) -> Case {
    Case {
        first,
        count,
        procedure,
    }
}

// Whether the fewer cases are those that are wanted.
fn gives(alloc: Global, cases: &[Case], wanted: &[Case]) -> Result<bool, NoMemory> {
    let new = fewer(alloc, cases)?;
    Ok(are_same(new.as_slice(), wanted))
}

fn are_same(cases: &[Case], wanted: &[Case]) -> bool {
    if cases.len() != wanted.len() {
        return false;
    }
    for (one, other) in cases.iter().zip(wanted.iter()) {
        if one.first != other.first
            || one.count != other.count
            || one.procedure != other.procedure
        {
            return false;
        }
    }
    true
}

// Numbers 1 to 4 and 5 to 6 have procedure 2, and 7 has procedure 9. They stand in another order.
#[test]
fn neighbours_join(rt: HostRuntime) {
    let cases = [case(5, 2, 2), case(7, 1, 9), case(1, 4, 2)];
    let becomes = gives(
        rt.alloc(),
        cases.as_slice(),
        [case(1, 6, 2), case(7, 1, 9)].as_slice(),
    );
    assert!(rt; becomes == Ok(true));
}

// No case has the numbers 3 to 7, which may get the procedure too.
#[test]
fn cases_join_across_a_gap(rt: HostRuntime) {
    let cases = [case(1, 2, 3), case(8, 1, 3)];
    let becomes = gives(rt.alloc(), cases.as_slice(), [case(1, 8, 3)].as_slice());
    assert!(rt; becomes == Ok(true));
}

#[test]
fn alternating_procedures_stay(rt: HostRuntime) {
    let cases = [case(1, 1, 4), case(2, 1, 5), case(3, 1, 4), case(4, 1, 5)];
    let becomes = gives(rt.alloc(), cases.as_slice(), cases.as_slice());
    assert!(rt; becomes == Ok(true));
}

// The numbers 3 and 4 are in both cases, and have the procedure of the first one, which would be the second in order.
#[test]
fn overlapping_cases_stay(rt: HostRuntime) {
    let cases = [case(3, 4, 1), case(1, 4, 2)];
    let becomes = gives(rt.alloc(), cases.as_slice(), cases.as_slice());
    assert!(rt; becomes == Ok(true));
}

// A count of 65,535 has two bytes, and one of 65,536 has not.
#[test]
fn counts_have_two_bytes(rt: HostRuntime) {
    let most = [case(0, 32768, 1), case(32768, 32767, 1)];
    let becomes = gives(rt.alloc(), most.as_slice(), [case(0, 65535, 1)].as_slice());
    assert!(rt; becomes == Ok(true));
    let more = [case(0, 32768, 1), case(32768, 32768, 1)];
    let becomes = gives(rt.alloc(), more.as_slice(), more.as_slice());
    assert!(rt; becomes == Ok(true));
}
