// The places of the newer code.
use crate::returning::{Ending, Ends, Shape, long_ending};
use std::alloc::Global;
use vg_base::{NoMemory, Row};
use vg_lin::Instr;
use vg_trim_flow::{at, counts, goes_next, is_at, note};

/// The newer code, and its place for each place of the older code.
#[derive(Drop)]
pub struct Placed {
    pub code: Row<Instr>,
    pub places: Row<u16>,
}

/// The newer code, where each instruction has the place of the older one.
pub fn in_place(alloc: Global, code: Row<Instr>) -> Result<Placed, NoMemory> {
    let mut places = Row::new(alloc);
    for place in 0..code.len() {
        places.push((place % 65_536) as u16)?;
    }
    Ok(Placed { code, places })
}

/// The newer code without what is left out, where nothing ever waits: also without jumps to what comes next, and without returns and stops that no
/// instruction leads to as to the next one, where there is such a one behind. What is made leads to places of the older code.
pub fn close_up(
    alloc: Global,
    older: &[Instr],
    made: Vec<Option<Instr>>,
    shape: Shape,
) -> Result<Placed, NoMemory> {
    let mut made = made;
    drop_jumps(alloc, older, &mut made)?;
    let shared = share(alloc, &mut made, shape)?;
    let mut dropped = Vec::from_elem(alloc, false, made.len())?;
    let first = places(
        alloc,
        made.as_slice(),
        shared.as_slice(),
        dropped.as_slice(),
    )?;
    drop_again(older, &mut made, first.as_slice(), &mut dropped);
    let places = places(
        alloc,
        made.as_slice(),
        shared.as_slice(),
        dropped.as_slice(),
    )?;
    let mut code = Row::new(alloc);
    for one in made {
        if let Some(instr) = one {
            code.push(led_on(instr, places.as_slice()))?;
        }
    }
    let mut row = Row::new(alloc);
    for place in places {
        row.push((place % 65_536) as u16)?;
    }
    Ok(Placed { code, places: row })
}

fn is_kept(made: &[Option<Instr>], place: usize) -> bool {
    match made.get(place) {
        Some(Some(_)) => true,
        _ => false,
    }
}

fn kept_at(made: &[Option<Instr>], place: usize) -> Option<Instr> {
    match made.get(place) {
        Some(Some(instr)) => Some(*instr),
        _ => None,
    }
}

// Leaves out jumps to what comes next.
fn drop_jumps(
    alloc: Global,
    older: &[Instr],
    made: &mut Vec<Option<Instr>>,
) -> Result<(), NoMemory> {
    let count = made.len();
    // for each place the first one from there on with an instruction
    let mut firsts = Vec::from_elem(alloc, count, count)?;
    let mut first = count;
    for step in 0..count {
        let place = count - 1 - step;
        if let Some(Instr::Jump(to)) = kept_at(made.as_slice(), place) {
            let to = usize::from(to);
            let is_next = place < to && to < firsts.len() && firsts[to] == first;
            if is_next && may_go(older, place) {
                set(made, place, None);
            }
        }
        if is_kept(made.as_slice(), place) {
            first = place;
        }
        if place < firsts.len() {
            firsts[place] = first;
        }
    }
    Ok(())
}

// Leaves out jumps that lead to what comes next now, by the places of the newer code, and notes where they were.
fn drop_again(
    older: &[Instr],
    made: &mut Vec<Option<Instr>>,
    places: &[usize],
    dropped: &mut Vec<bool>,
) {
    for place in 0..made.len() {
        if let Some(Instr::Jump(to)) = kept_at(made.as_slice(), place) {
            let there = places.get(usize::from(to)).copied();
            let next = places.get(place).map(|own| own.saturating_add(1));
            if place < usize::from(to) && there == next && may_go(older, place) {
                set(made, place, None);
                note(dropped, place);
            }
        }
    }
}

// Whether a jump that stands for the older instruction at a place may be left out.
fn may_go(older: &[Instr], place: usize) -> bool {
    match at(older, place) {
        Some(Instr::Jump(_)) => true,
        Some(Instr::Unless(_, _)) => !counts(older, place),
        Some(Instr::When(_, _)) => !counts(older, place),
        _ => false,
    }
}

// Leaves out returns and stops that do the same as the next one, or the same as a later one and to which no instruction leads as to the next one; a branch over
// one is turned, so that it leads there. Other ones that do the same as a later one become jumps. For each place the one where what is left out so stands.
fn share(
    alloc: Global,
    made: &mut Vec<Option<Instr>>,
    shape: Shape,
) -> Result<Vec<Option<usize>>, NoMemory> {
    let count = made.len();
    let before = before(alloc, made.as_slice())?;
    let mut shared = Vec::from_elem(alloc, None, count)?;
    let mut ends = Ends::new(alloc);
    let mut behind = Behind {
        firsts: Vec::from_elem(alloc, count, count)?,
        next: count,
    };
    for step in 0..count {
        let place = count - 1 - step;
        if let Some(ending) = ending_at(made.as_slice(), place, shape) {
            let last = last_before(before.as_slice(), place);
            match ends.place_of(ending) {
                Some(to) => share_at(made, &mut shared, &behind, (last, place), to),
                None => ends.note(ending, place)?,
            }
        }
        let is_moved = shared.get(place).copied().flatten().is_some();
        behind.pass(place, is_kept(made.as_slice(), place), is_moved);
    }
    Ok(shared)
}

// What was looked at already, from the last place on.
#[derive(Drop)]
struct Behind {
    // for each place the first one from there on with an instruction, if nothing between stands elsewhere; else a place that there is not
    firsts: Vec<usize>,
    // the same for the next place
    next: usize,
}

impl Behind {
    fn pass(&mut self, place: usize, is_kept: bool, is_moved: bool) {
        if is_kept {
            self.next = place;
        } else if is_moved {
            self.next = usize::MAX;
        }
        if place < self.firsts.len() {
            self.firsts[place] = self.next;
        }
    }

    // Whether this place comes next.
    fn is_next(&self, place: u16) -> bool {
        match self.firsts.get(usize::from(place)) {
            Some(first) => *first == self.next && self.next < self.firsts.len(),
            None => false,
        }
    }
}

// Leaves out an ending at a place, or makes a jump of it, where this one does the same; by the last instruction before.
fn share_at(
    made: &mut Vec<Option<Instr>>,
    shared: &mut Vec<Option<usize>>,
    behind: &Behind,
    at: (Option<usize>, usize),
    to: u16,
) {
    let (last, place) = at;
    if behind.is_next(to) {
        set(made, place, None);
        return;
    }
    let over = branch_over(made.as_slice(), behind, last, place);
    if let Some((first, branch)) = over {
        set(made, first, Some(branch));
    } else if comes(made.as_slice(), last) {
        set(made, place, Some(Instr::Jump(to)));
        return;
    }
    if place < shared.len() {
        set(made, place, None);
        shared[place] = Some(usize::from(to));
    }
}

fn last_before(before: &[Option<usize>], place: usize) -> Option<usize> {
    match before.get(place) {
        Some(last) => *last,
        None => None,
    }
}

// The place of a branch over one instruction at a place, and the other branch that leads to that.
fn branch_over(
    made: &[Option<Instr>],
    behind: &Behind,
    last: Option<usize>,
    place: usize,
) -> Option<(usize, Instr)> {
    let first = last?;
    let branch = kept_at(made, first)?;
    let to = match branch {
        Instr::When(_, to) => to,
        Instr::Unless(_, to) => to,
        _ => return None,
    };
    if place < usize::from(to) && behind.is_next(to) {
        Some((first, turned(branch, place)))
    } else {
        None
    }
}

// The other branch, which leads to this place.
fn turned(branch: Instr, place: usize) -> Instr {
    let to = (place % 65_536) as u16;
    match branch {
        Instr::When(test, _) => Instr::Unless(test, to),
        Instr::Unless(test, _) => Instr::When(test, to),
        other => other,
    }
}

fn ending_at(made: &[Option<Instr>], place: usize, shape: Shape) -> Option<Ending> {
    long_ending(kept_at(made, place)?, shape)
}

fn set(made: &mut Vec<Option<Instr>>, place: usize, stands: Option<Instr>) {
    if place < made.len() {
        made[place] = stands;
    }
}

// For each place the last one before it with an instruction.
fn before(alloc: Global, made: &[Option<Instr>]) -> Result<Vec<Option<usize>>, NoMemory> {
    let mut before = Vec::new(alloc);
    let mut last = None;
    let mut place = 0usize;
    for one in made {
        before.push(last)?;
        if one.is_some() {
            last = Some(place);
        }
        place = place.saturating_add(1);
    }
    Ok(before)
}

// Whether the instruction at a place leads to what comes next; without one code begins there.
fn comes(made: &[Option<Instr>], last: Option<usize>) -> bool {
    match last {
        Some(place) => match kept_at(made, place) {
            Some(instr) => goes_next(instr),
            None => true,
        },
        None => true,
    }
}

// For each place of the older code that of the newer code. What is left out before a shared ending is where that stands, from the last instruction or dropped
// jump before it on.
fn places(
    alloc: Global,
    made: &[Option<Instr>],
    shared: &[Option<usize>],
    dropped: &[bool],
) -> Result<Vec<usize>, NoMemory> {
    let mut places = Vec::new(alloc);
    let mut next = 0usize;
    for one in made {
        places.push(next)?;
        if one.is_some() {
            next = next.saturating_add(1);
        }
    }
    let count = places.len();
    // where what is left out before a shared ending leads
    let mut there: Option<usize> = None;
    for step in 0..count {
        let place = count - 1 - step;
        if let Some(Some(to)) = shared.get(place) {
            there = places.get(*to).copied();
        } else if is_kept(made, place) || is_at(dropped, place) {
            there = None;
        }
        if let Some(to) = there {
            if place < places.len() {
                places[place] = to;
            }
        }
    }
    Ok(places)
}

// An instruction that leads to these places where it led to those of the older code.
fn led_on(instr: Instr, places: &[usize]) -> Instr {
    match instr {
        Instr::When(test, to) => Instr::When(test, place_in(places, to)),
        Instr::Unless(test, to) => Instr::Unless(test, place_in(places, to)),
        Instr::Jump(to) => Instr::Jump(place_in(places, to)),
        other => other,
    }
}

fn place_in(places: &[usize], to: u16) -> u16 {
    match places.get(usize::from(to)) {
        Some(place) => (*place % 65_536) as u16,
        None => to,
    }
}
