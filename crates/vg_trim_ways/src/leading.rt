// Where branches and jumps are led: past jumps, and past branches that are decided by known numbers on the way.
use std::alloc::Global;
use vg_base::NoMemory;
use vg_lin::{Instr, Operand, Plain, Test};
use vg_trim_flow::{Grid, Next, at, checked, counts, is_at, note, reach};

// A way through code: where it is, whether a step of it may no longer count, the locals that got numbers on it, and the last one of them with its number.
#[derive(Clone, Copy)]
struct Walk {
    at: usize,
    spent: bool,
    first: Option<u8>,
    second: Option<u8>,
    last: Option<(u8, u32)>,
}

/// Ways that are led on.
#[derive(Drop)]
pub struct Led {
    /// Where the instruction at each place leads.
    pub nexts: Vec<Next>,
    /// Locals that get numbers on these ways.
    pub walked: Vec<bool>,
    /// Places of branches on whose way a step counts.
    pub paid: Vec<bool>,
    /// Places of branches for which the other one stands, with its places the other way round.
    pub turned: Vec<bool>,
}

/// The same ways, none of them led on.
pub fn unled(alloc: Global, nexts: Vec<Next>, locals: usize) -> Result<Led, NoMemory> {
    let count = nexts.len();
    Ok(Led {
        nexts,
        walked: Vec::from_elem(alloc, false, locals)?,
        paid: Vec::from_elem(alloc, false, count)?,
        turned: Vec::from_elem(alloc, false, count)?,
    })
}

/// Whether a branch or a jump may be led on.
pub fn may_lead(code: &[Instr], nexts: &[Next]) -> bool {
    let mut place = 0usize;
    for next in nexts {
        let is_on = match *next {
            Next::Two(to, behind) => leads_on(code, to) || leads_on(code, behind),
            Next::One(to) => is_jump(code, place) && leads_on(code, to),
            Next::Nowhere => false,
        };
        if is_on {
            return true;
        }
        place = place.saturating_add(1);
    }
    false
}

// Whether a way goes on from a place.
fn leads_on(code: &[Instr], place: usize) -> bool {
    match at(code, place) {
        Some(Instr::Jump(_)) => true,
        Some(Instr::Plain(Plain::Copy(_, Operand::Known(_)))) => true,
        _ => false,
    }
}

fn is_jump(code: &[Instr], place: usize) -> bool {
    match at(code, place) {
        Some(Instr::Jump(_)) => true,
        _ => false,
    }
}

/// Leads on where no local is needed that gets a number on the way; by the locals that are needed at each place. The code behind a branch is led on only where
/// no run comes to what stands between that and one of the places to which the branch leads.
pub fn lead(alloc: Global, code: &[Instr], live: &Grid, led: &mut Led) -> Result<(), NoMemory> {
    for place in 0..led.nexts.len() {
        lead_at(code, live, led, place);
    }
    settle(alloc, led)
}

fn lead_at(code: &[Instr], live: &Grid, led: &mut Led, place: usize) {
    if place >= led.nexts.len() {
        return;
    }
    match led.nexts[place] {
        Next::Nowhere => {}
        Next::One(to) => {
            if is_jump(code, place) {
                let there = end_of(code, live, place, to, true);
                note_walk(led, there);
                if place < led.nexts.len() {
                    led.nexts[place] = Next::One(there.at);
                }
            }
        }
        Next::Two(to, behind) => {
            let spent = counts(code, place);
            let there = end_of(code, live, place, to, spent);
            let here = end_of(code, live, place, behind, spent);
            note_walk(led, there);
            note_walk(led, here);
            if there.spent && !spent {
                note(&mut led.paid, place);
            }
            if place < led.nexts.len() {
                led.nexts[place] = Next::Two(there.at, here.at);
            }
        }
    }
}

fn note_walk(led: &mut Led, walk: Walk) {
    if let Some(local) = walk.first {
        note(&mut led.walked, usize::from(local));
    }
    if let Some(local) = walk.second {
        note(&mut led.walked, usize::from(local));
    }
}

// The farthest place to which a way from this place may be led.
fn end_of(code: &[Instr], live: &Grid, from: usize, to: usize, spent: bool) -> Walk {
    let mut walk = Walk {
        at: to,
        spent,
        first: None,
        second: None,
        last: None,
    };
    let mut end = walk;
    for _step in 0..24u8 {
        match further(code, walk) {
            Some((next, is_end)) => {
                walk = next;
                let is_free = !is_live(live, walk.at, walk.first)
                    && !is_live(live, walk.at, walk.second);
                if is_end && is_free && walk.at != from {
                    end = walk;
                }
            }
            None => return end,
        }
    }
    end
}

fn is_live(live: &Grid, place: usize, local: Option<u8>) -> bool {
    match local {
        Some(number) => live.has(place, usize::from(number)),
        None => false,
    }
}

// The way one step further, and whether it may end there.
fn further(code: &[Instr], walk: Walk) -> Option<(Walk, bool)> {
    match at(code, walk.at) {
        Some(Instr::Plain(Plain::Copy(local, Operand::Known(number)))) => {
            let next = with_number(walk, local, number)?;
            Some((next, false))
        }
        Some(Instr::Jump(to)) => {
            let mut next = walk;
            next.at = usize::from(to);
            Some((next, true))
        }
        Some(Instr::When(test, to)) => decided(code, walk, test, to, true),
        Some(Instr::Unless(test, to)) => decided(code, walk, test, to, false),
        _ => None,
    }
}

// The way behind a copy of a number, where there are at most two locals with numbers.
fn with_number(walk: Walk, local: u8, number: u32) -> Option<Walk> {
    let mut next = walk;
    next.at = walk.at.saturating_add(1);
    next.last = Some((local, number));
    if is_it(walk.first, local) || is_it(walk.second, local) {
        return Some(next);
    }
    if walk.first.is_none() {
        next.first = Some(local);
    } else if walk.second.is_none() {
        next.second = Some(local);
    } else {
        return None;
    }
    Some(next)
}

fn is_it(some: Option<u8>, local: u8) -> bool {
    match some {
        Some(other) => other == local,
        None => false,
    }
}

// The way behind a branch that compares with 0 the local which got a number last; it is taken where the test comes out so.
fn decided(code: &[Instr], walk: Walk, test: Test, to: u16, when: bool) -> Option<(Walk, bool)> {
    let (local, number) = walk.last?;
    let is_counted = counts(code, walk.at);
    if !is_it(checked(test), local) || number >= 2 || (walk.spent && is_counted) {
        return None;
    }
    let mut next = walk;
    next.spent = walk.spent || is_counted;
    let holds = number == 0;
    next.at = if holds == when {
        usize::from(to)
    } else {
        walk.at.saturating_add(1)
    };
    Some((next, true))
}

// Lets branches lead to the place behind them where a run comes to what stands between that and where they were led, and turns those that may be turned.
fn settle(alloc: Global, led: &mut Led) -> Result<(), NoMemory> {
    for _round in 0..8u8 {
        let reached = reach(alloc, led.nexts.as_slice())?;
        let before = before(alloc, reached.as_slice())?;
        if !mend(led, reached.as_slice(), before.as_slice()) {
            return Ok(());
        }
    }
    for place in 0..led.nexts.len() {
        if place < led.nexts.len() {
            if let Next::Two(to, _) = led.nexts[place] {
                led.nexts[place] = Next::Two(to, place.saturating_add(1));
            }
        }
        if place < led.turned.len() {
            led.turned[place] = false;
        }
    }
    Ok(())
}

// For each place how many reached ones are before it.
fn before(alloc: Global, reached: &[bool]) -> Result<Vec<usize>, NoMemory> {
    let mut before = Vec::new(alloc);
    let mut count = 0usize;
    for is_reached in reached {
        before.push(count)?;
        if *is_reached {
            count = count.saturating_add(1);
        }
    }
    Ok(before)
}

// Whether there was a branch that leads to the place behind it now.
fn mend(led: &mut Led, reached: &[bool], before: &[usize]) -> bool {
    let mut is_changed = false;
    for place in 0..led.nexts.len() {
        if place < led.nexts.len() && place < led.turned.len() && is_at(reached, place) {
            if let Next::Two(to, behind) = led.nexts[place] {
                let next = place.saturating_add(1);
                if is_next(before, next, behind) {
                    led.turned[place] = false;
                } else if is_next(before, next, to) {
                    led.turned[place] = true;
                } else {
                    led.turned[place] = false;
                    led.nexts[place] = Next::Two(to, next);
                    is_changed = true;
                }
            }
        }
    }
    is_changed
}

// Whether the second place is the first one, or behind it with nothing between to which a run comes.
fn is_next(before: &[usize], first: usize, second: usize) -> bool {
    match (before.get(first), before.get(second)) {
        (Some(one), Some(other)) => first <= second && *one == *other,
        _ => false,
    }
}
