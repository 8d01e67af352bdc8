use std::alloc::Global;
use vg_base::{NoMemory, Row};
use vg_lin::{
    Call, Callee, Comparison, Computation, Instr, Operand, Operator, Plain, Registers, Test,
};
use vg_trim::looks_right;
use vg_trim_pairs::Both;
use vg_trimming::{Facts, Twin, Worked};

// A branch over a stop, which is taken where the first local is not 0.
fn check(to: u16) -> Instr {
    Instr::Unless(
        Test {
            comparison: Comparison::Same,
            width: 2,
            left: Operand::Local(0),
            right: Operand::Known(0),
        },
        to,
    )
}

fn stop() -> Instr {
    Instr::Plain(Plain::Stop(7))
}

fn copy(to: u8, from: Operand) -> Instr {
    Instr::Plain(Plain::Copy(to, from))
}

fn give(local: u8) -> Instr {
    Instr::Return(2, Operand::Local(local))
}

// What is known at a place: that no run comes there, or that the first local stands where it stood. It may also be known not to be 0, or the second local
// to be its copy.
#[derive(Clone, Copy)]
enum Known {
    Unreached,
    First,
    Filled,
    Copied,
    FilledAndCopied,
}

fn facts_of(alloc: Global, known: Known) -> Result<Facts, NoMemory> {
    let (reached, filled, copied) = match known {
        Known::Unreached => (false, false, false),
        Known::First => (true, false, false),
        Known::Filled => (true, true, false),
        Known::Copied => (true, false, true),
        Known::FilledAndCopied => (true, true, true),
    };
    let home = Operand::Local(0);
    let mut twins = Row::new(alloc);
    if reached {
        twins.push(Twin { local: 0, home })?;
    }
    if copied {
        twins.push(Twin { local: 1, home })?;
    }
    let mut locals = Row::new(alloc);
    if filled {
        locals.push(0)?;
    }
    Ok(Facts {
        reached,
        twins,
        filled: locals,
        worked: Row::new(alloc),
        bounds: Row::new(alloc),
    })
}

fn all_facts(alloc: Global, all: &[Known]) -> Result<Row<Facts>, NoMemory> {
    let mut row = Row::new(alloc);
    for known in all {
        row.push(facts_of(alloc, *known)?)?;
    }
    Ok(row)
}

// Whether the newer code stands for the older one, with one parameter, three locals of two bytes and a result of two bytes. The newer code is at these places
// where the older one is at its places.
fn stands(
    alloc: Global,
    older: &[Instr],
    newer: &[Instr],
    known: &[Known],
    places: &[u16],
) -> Result<bool, NoMemory> {
    let facts = all_facts(alloc, known)?;
    Ok(stands_at(older, newer, facts.as_slice(), places))
}

fn stands_at(older: &[Instr], newer: &[Instr], facts: &[Facts], places: &[u16]) -> bool {
    let widths: [u8; 3] = [2, 2, 2];
    let both = Both {
        old: widths.as_slice(),
        new: widths.as_slice(),
        older,
        newer,
        facts,
        places,
    };
    looks_right(1, 2, both)
}

// The same where each instruction stands at the place of the older one.
fn stands_by(older: &[Instr], newer: &[Instr], facts: &[Facts]) -> bool {
    let places: [u16; 7] = [0, 1, 2, 3, 4, 5, 6];
    stands_at(older, newer, facts, places.as_slice())
}

// The first local is checked, copied to the second, and checked again. In place of the copy this local gets a number, and the second check is left out. This
// is known before and behind the copy.
fn checked_twice(
    alloc: Global,
    spoiled: u8,
    before: Known,
    behind: Known,
) -> Result<bool, NoMemory> {
    let older = [
        check(2),
        stop(),
        copy(1, Operand::Local(0)),
        check(5),
        stop(),
        give(1),
    ];
    let newer = [check(2), stop(), copy(spoiled, Operand::Known(0)), give(0)];
    let known = [
        Known::First,
        Known::First,
        before,
        behind,
        Known::Unreached,
        Known::Copied,
    ];
    let places: [u16; 6] = [0, 1, 2, 3, 3, 3];
    stands(
        alloc,
        older.as_slice(),
        newer.as_slice(),
        known.as_slice(),
        places.as_slice(),
    )
}

// The same where the first local gets a value between both checks, behind which this is known.
fn set_between(alloc: Global, behind: Known) -> Result<bool, NoMemory> {
    let set = copy(0, Operand::Local(0));
    let older = [check(2), stop(), set, check(5), stop(), give(0)];
    let newer = [check(2), stop(), set, give(0)];
    let known = [
        Known::First,
        Known::First,
        Known::Filled,
        behind,
        Known::Unreached,
        Known::First,
    ];
    let places: [u16; 6] = [0, 1, 2, 3, 3, 3];
    stands(
        alloc,
        older.as_slice(),
        newer.as_slice(),
        known.as_slice(),
        places.as_slice(),
    )
}

// A value waits for a while. Where no run comes, another one waits, or an instruction stands in place of that.
fn never_pushed(alloc: Global, instead: Instr) -> Result<bool, NoMemory> {
    let push = Instr::Plain(Plain::Push(2, Operand::Local(0)));
    let pop = Instr::Plain(Plain::Pop(2, 2));
    let older = [push, pop, Instr::Jump(4), push, give(0)];
    let newer = [push, pop, Instr::Jump(4), instead, give(0)];
    let known = [
        Known::First,
        Known::First,
        Known::First,
        Known::Unreached,
        Known::First,
    ];
    let places: [u16; 5] = [0, 1, 2, 3, 4];
    stands(
        alloc,
        older.as_slice(),
        newer.as_slice(),
        known.as_slice(),
        places.as_slice(),
    )
}

// A check of what was checked before may be left out, but not with the local in its place that has the value from then on.
#[test]
fn second_checks_are_left_out(rt: HostRuntime) {
    let alloc = rt.alloc();
    let is_left_out = checked_twice(alloc, 2, Known::Filled, Known::FilledAndCopied);
    let not_known = checked_twice(alloc, 2, Known::First, Known::Copied);
    let overwritten = checked_twice(alloc, 0, Known::Filled, Known::FilledAndCopied);
    assert!(rt; is_left_out == Ok(true) && not_known == Ok(false) && overwritten == Ok(false));
}

// It may not be left out where the local got another value, whatever is said of that.
#[test]
fn changed_locals_are_checked(rt: HostRuntime) {
    let alloc = rt.alloc();
    let filled = set_between(alloc, Known::Filled);
    let not_known = set_between(alloc, Known::First);
    assert!(rt; filled == Ok(false) && not_known == Ok(false));
}

// What waits stays the same also where no run comes.
#[test]
fn waiting_values_stay(rt: HostRuntime) {
    let alloc = rt.alloc();
    let other = Instr::Plain(Plain::Push(2, Operand::Known(5)));
    let pushed = never_pushed(alloc, other);
    let left_out = never_pushed(alloc, copy(2, Operand::Known(0)));
    assert!(rt; pushed == Ok(true) && left_out == Ok(false));
}

// The first local times a number goes to a local.
fn times(to: u8, factor: u32) -> Instr {
    Instr::Plain(Plain::Compute(Computation {
        operator: Operator::Times,
        width: 2,
        to,
        left: Operand::Local(0),
        right: Operand::Known(factor),
    }))
}

// The first local stands where it stood, and perhaps the second one too; and perhaps this local has the first one times a number.
fn facts_with(
    alloc: Global,
    is_second: bool,
    product: Option<(u8, u32)>,
) -> Result<Facts, NoMemory> {
    let mut twins = Row::new(alloc);
    twins.push(Twin {
        local: 0,
        home: Operand::Local(0),
    })?;
    if is_second {
        twins.push(Twin {
            local: 1,
            home: Operand::Local(1),
        })?;
    }
    let mut worked = Row::new(alloc);
    if let Some((home, factor)) = product {
        worked.push(Worked {
            operator: Operator::Times,
            width: 2,
            left: Operand::Local(0),
            right: Operand::Known(factor),
            home,
        })?;
    }
    Ok(Facts {
        reached: true,
        twins,
        filled: Row::new(alloc),
        worked,
        bounds: Row::new(alloc),
    })
}

// The first local times 4 goes to the second one; then comes this instruction; and then the first one times a number goes to the second one again, which is
// left out, with this local in its place. It is known before and behind the instruction that this local has the product by this number.
fn multiplied_twice(
    alloc: Global,
    between: Instr,
    factor: u32,
    spoiled: u8,
    product: (u8, u32),
) -> Result<bool, NoMemory> {
    let older = [times(1, 4), between, times(1, factor), give(1)];
    let newer = [
        times(1, 4),
        between,
        copy(spoiled, Operand::Known(0)),
        give(1),
    ];
    let mut facts = Row::new(alloc);
    facts.push(facts_with(alloc, false, None)?)?;
    facts.push(facts_with(alloc, false, Some(product))?)?;
    facts.push(facts_with(alloc, false, Some(product))?)?;
    facts.push(facts_with(alloc, true, None)?)?;
    Ok(stands_by(older.as_slice(), newer.as_slice(), facts.as_slice()))
}

// A return, or a jump to that place, stands before a return of the local. It is the first local's value that the older code gives back.
fn returned_twice(alloc: Global, to: u16, last: u8) -> Result<bool, NoMemory> {
    let older = [check(2), give(0), give(last)];
    let newer = [check(2), Instr::Jump(to), give(last)];
    let mut facts = Row::new(alloc);
    for _place in 0..3u8 {
        facts.push(facts_with(alloc, last == 1, None)?)?;
    }
    Ok(stands_by(older.as_slice(), newer.as_slice(), facts.as_slice()))
}

// What was computed before is not computed again, but another product is, and one of a local that got another value.
#[test]
fn products_are_used_again(rt: HostRuntime) {
    let alloc = rt.alloc();
    let device = Instr::Plain(Plain::WriteDevice(0x38, Operand::Local(0)));
    let again = multiplied_twice(alloc, device, 4, 2, (1, 4));
    let other = multiplied_twice(alloc, device, 2, 2, (1, 4));
    let claimed = multiplied_twice(alloc, device, 2, 2, (1, 2));
    let elsewhere = multiplied_twice(alloc, device, 4, 1, (2, 4));
    let spoiled = multiplied_twice(alloc, device, 4, 1, (1, 4));
    assert!(rt; again == Ok(true) && other == Ok(false) && claimed == Ok(false));
    assert!(rt; elsewhere == Ok(false) && spoiled == Ok(false));
    let changed = copy(0, Operand::Known(7));
    let stale = multiplied_twice(alloc, changed, 4, 2, (1, 4));
    assert!(rt; stale == Ok(false));
}

// In place of a return may stand a jump to a later one that gives the same back; none to an earlier place, and none to a return of another local.
#[test]
fn returns_are_shared(rt: HostRuntime) {
    let alloc = rt.alloc();
    let shared = returned_twice(alloc, 2, 0);
    let back = returned_twice(alloc, 0, 0);
    let itself = returned_twice(alloc, 1, 0);
    let other = returned_twice(alloc, 2, 1);
    assert!(rt;
        shared == Ok(true) && back == Ok(false) && itself == Ok(false) && other == Ok(false)
    );
}

// A jump to a place stands where the first local is 0 in place of a stop of the code 7, before a stop of the last code. Before all of that perhaps a value
// waits, until all is over.
fn stopped_twice(alloc: Global, waits: bool, instead: Instr, last: u8) -> Result<bool, NoMemory> {
    let push = Instr::Plain(Plain::Push(2, Operand::Local(0)));
    let pop = Instr::Plain(Plain::Pop(2, 2));
    let (first, behind) = if waits {
        (push, pop)
    } else {
        (copy(2, Operand::Known(0)), copy(2, Operand::Known(0)))
    };
    let end = Instr::Plain(Plain::Stop(last));
    let older = [first, check(3), stop(), check(5), end, behind, give(0)];
    let newer = [first, check(3), instead, check(5), end, behind, give(0)];
    let mut facts = Row::new(alloc);
    for _place in 0..7u8 {
        facts.push(facts_with(alloc, false, None)?)?;
    }
    Ok(stands_by(older.as_slice(), newer.as_slice(), facts.as_slice()))
}

// In place of a stop may stand a jump to a later stop of the same code; none to a stop of another one, to another instruction or to itself.
#[test]
fn stops_are_shared(rt: HostRuntime) {
    let alloc = rt.alloc();
    let shared = stopped_twice(alloc, false, Instr::Jump(4), 7);
    let other = stopped_twice(alloc, false, Instr::Jump(4), 8);
    let no_stop = stopped_twice(alloc, false, Instr::Jump(6), 7);
    let itself = stopped_twice(alloc, false, Instr::Jump(2), 7);
    assert!(rt;
        shared == Ok(true) && other == Ok(false) && no_stop == Ok(false) && itself == Ok(false)
    );
}

// None where a value may wait.
#[test]
fn stops_with_waiting_values_stay(rt: HostRuntime) {
    let alloc = rt.alloc();
    let stays = stopped_twice(alloc, true, stop(), 7);
    let shared = stopped_twice(alloc, true, Instr::Jump(4), 7);
    assert!(rt; stays == Ok(true) && shared == Ok(false));
}

// A return to which no run comes, and in its place a jump.
fn never_returned(alloc: Global, to: u16) -> Result<bool, NoMemory> {
    let older = [Instr::Jump(2), give(0), give(0)];
    let newer = [Instr::Jump(2), Instr::Jump(to), give(0)];
    let known = [Known::First, Known::Unreached, Known::First];
    let places: [u16; 3] = [0, 1, 2];
    stands(
        alloc,
        older.as_slice(),
        newer.as_slice(),
        known.as_slice(),
        places.as_slice(),
    )
}

// Where no run comes may stand a jump to any other place.
#[test]
fn jumps_stand_where_no_run_comes(rt: HostRuntime) {
    let alloc = rt.alloc();
    let back = never_returned(alloc, 0);
    let itself = never_returned(alloc, 1);
    let beyond = never_returned(alloc, 3);
    assert!(rt; back == Ok(true) && itself == Ok(false) && beyond == Ok(false));
}

// An instruction before a return of the first local is left out.
fn left_out(alloc: Global, instr: Instr) -> Result<bool, NoMemory> {
    let older = [instr, give(0)];
    let newer = [give(0)];
    let known = [Known::First, Known::First];
    let places: [u16; 2] = [0, 0];
    stands(
        alloc,
        older.as_slice(),
        newer.as_slice(),
        known.as_slice(),
        places.as_slice(),
    )
}

// A copy that nobody needs is left out; a read of a device, a call and an interrupt are not.
#[test]
fn only_what_shows_nothing_is_left_out(rt: HostRuntime) {
    let alloc = rt.alloc();
    let call = Call {
        callee: Callee::Procedure(0),
        pushed: 0,
        registers: Registers::Empty,
        to: None,
    };
    let copied = left_out(alloc, copy(2, Operand::Known(7)));
    let spoiled = left_out(alloc, copy(0, Operand::Known(7)));
    let read = left_out(alloc, Instr::Plain(Plain::ReadDevice(2, 0x36)));
    let called = left_out(alloc, Instr::Call(call));
    let idled = left_out(alloc, Instr::Idle);
    assert!(rt; copied == Ok(true) && spoiled == Ok(false));
    assert!(rt; read == Ok(false) && called == Ok(false) && idled == Ok(false));
}

// A branch where the second local is 0.
fn where_none(to: u16) -> Instr {
    Instr::When(
        Test {
            comparison: Comparison::Same,
            width: 2,
            left: Operand::Local(1),
            right: Operand::Known(0),
        },
        to,
    )
}

// The first loop, which ends where the first local is 0, is left for the second one, which ends at once, since the second local is 0 then; the jump to this
// place ends the second loop. The newer code leaves the first loop for what is behind both.
fn left_for_another(alloc: Global, back: u16) -> Result<bool, NoMemory> {
    let first = Instr::When(
        Test {
            comparison: Comparison::Same,
            width: 2,
            left: Operand::Local(0),
            right: Operand::Known(0),
        },
        2,
    );
    let older = [
        first,
        Instr::Jump(0),
        copy(1, Operand::Known(0)),
        where_none(5),
        Instr::Jump(back),
        give(0),
    ];
    let newer = [first, Instr::Jump(0), give(0)];
    let known = [
        Known::First,
        Known::First,
        Known::Unreached,
        Known::Unreached,
        Known::Unreached,
        Known::First,
    ];
    let places: [u16; 6] = [0, 1, 2, 2, 2, 2];
    stands(
        alloc,
        older.as_slice(),
        newer.as_slice(),
        known.as_slice(),
        places.as_slice(),
    )
}

// A branch that is the test of a turn leads past one that is none, but not past the test of another turn.
#[test]
fn one_test_of_a_turn_is_enough(rt: HostRuntime) {
    let alloc = rt.alloc();
    let past = left_for_another(alloc, 5);
    let past_a_test = left_for_another(alloc, 3);
    assert!(rt; past == Ok(true) && past_a_test == Ok(false));
}

// A branch to this place stands for a check before a stop and a return, with the stop behind the return.
fn turned(alloc: Global, branch: Instr) -> Result<bool, NoMemory> {
    let older = [check(2), stop(), give(0)];
    let newer = [branch, give(0), stop()];
    let known = [Known::First, Known::First, Known::First];
    let places: [u16; 3] = [0, 2, 1];
    stands(
        alloc,
        older.as_slice(),
        newer.as_slice(),
        known.as_slice(),
        places.as_slice(),
    )
}

// The other branch may stand for one, with its places the other way round; the same one may not, nor one to another place.
#[test]
fn branches_may_be_turned(rt: HostRuntime) {
    let alloc = rt.alloc();
    let test = Test {
        comparison: Comparison::Same,
        width: 2,
        left: Operand::Local(0),
        right: Operand::Known(0),
    };
    let other = turned(alloc, Instr::When(test, 2));
    let same = turned(alloc, Instr::Unless(test, 2));
    let elsewhere = turned(alloc, Instr::When(test, 1));
    assert!(rt; other == Ok(true) && same == Ok(false) && elsewhere == Ok(false));
}
