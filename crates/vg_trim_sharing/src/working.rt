// Computations that are done more than once, and where their results are there already.
use std::alloc::Global;
use vg_base::NoMemory;
use vg_lin::{Computation, Instr, Operand, Operator, Plain};
use vg_trim_flow::{Grid, Next, Ways, at, is_at, is_same, note, target_of, width_of};
use vg_trim_living::{Life, is_behind, is_crossing_behind};

/// Computations whose results are kept, each in a local of its own.
#[derive(Drop)]
pub struct Works {
    /// The computations; the locals that get their results do not count.
    pub kinds: Vec<Computation>,
    /// For each place the computations whose results are there whenever a run comes to it.
    pub there: Grid,
}

fn kind_in(kinds: &[Computation], c: Computation) -> Option<usize> {
    let mut number = 0usize;
    for kind in kinds {
        if is_alike(*kind, c) {
            return Some(number);
        }
        number = number.saturating_add(1);
    }
    None
}

// Whether two computations give the same where their operands have the same values.
fn is_alike(a: Computation, b: Computation) -> bool {
    is_operator(a.operator, b.operator)
        && a.width == b.width
        && is_same(a.left, b.left)
        && is_same(a.right, b.right)
}

// Whether two operators are the same, of those whose results need all bytes.
fn is_operator(a: Operator, b: Operator) -> bool {
    match (a, b) {
        (Operator::Plus, Operator::Plus) => true,
        (Operator::Minus, Operator::Minus) => true,
        (Operator::Times, Operator::Times) => true,
        (Operator::ShiftLeft, Operator::ShiftLeft) => true,
        (Operator::ShiftRight, Operator::ShiftRight) => true,
        _ => false,
    }
}

/// What is known of a procedure.
#[derive(Drop)]
pub struct Seen<'a> {
    pub code: &'a [Instr],
    pub widths: &'a [u8],
    pub ways: &'a Ways,
    pub life: &'a Life,
}

impl Seen<'_> {
    // The computation of an instruction whose result may stand where it is kept: it is needed, but not where ways meet, and a local holds all of it.
    fn work_of(&self, instr: Instr, place: usize) -> Option<Computation> {
        let Instr::Plain(Plain::Compute(c)) = instr else {
            return None;
        };
        let next = self.ways.next(place);
        let local = usize::from(c.to);
        let is_kept = is_operator(c.operator, c.operator)
            && !is_known(c)
            && !is_walked(self.ways, c.left)
            && !is_walked(self.ways, c.right)
            && !is_operand(c, c.to)
            && c.width <= width_of(self.widths, c.to)
            && is_behind(&self.life.live, next, local)
            && !is_crossing_behind(&self.life.live, &self.life.crossing, self.ways, next, local);
        if is_kept { Some(c) } else { None }
    }

    /// The number of the kept computation that an instruction does, where its result may stand where it is kept.
    pub fn work_in(&self, works: &Works, instr: Instr, place: usize) -> Option<usize> {
        match self.work_of(instr, place) {
            Some(c) => kind_in(works.kinds.as_slice(), c),
            None => None,
        }
    }
}

// Whether an operand gets a number on a way that is left out.
fn is_walked(ways: &Ways, value: Operand) -> bool {
    match value {
        Operand::Local(local) => is_at(ways.walked.as_slice(), usize::from(local)),
        Operand::Known(_) => false,
    }
}

fn is_known(c: Computation) -> bool {
    match (c.left, c.right) {
        (Operand::Known(_), Operand::Known(_)) => true,
        _ => false,
    }
}

fn is_operand(c: Computation, local: u8) -> bool {
    is_same(c.left, Operand::Local(local)) || is_same(c.right, Operand::Local(local))
}

// A computation, and how often it is done where its result is there.
#[derive(Clone, Copy)]
struct Useful {
    kind: Computation,
    uses: usize,
}

/// The computations of a procedure whose results are there again where they are computed another time, at most eight; in front those with the most such places.
pub fn useful_works(alloc: Global, seen: &Seen<'_>) -> Result<Vec<Computation>, NoMemory> {
    let mut works = Works {
        kinds: Vec::new(alloc),
        there: Grid::new(alloc, 0, 0, false)?,
    };
    collect(alloc, seen, &mut works)?;
    works.there = where_there(alloc, seen, &works)?;
    let mut useful = Vec::new(alloc);
    for number in 0..works.kinds.len() {
        let uses = uses_of(seen, &works, number);
        if uses > 0 {
            useful.push(Useful {
                kind: works.kinds[number],
                uses,
            })?;
        }
    }
    useful.sort_by_key(|one| usize::MAX - one.uses)?;
    let mut kinds = Vec::new(alloc);
    for one in useful.as_slice() {
        kinds.push(one.kind)?;
    }
    Ok(kinds)
}

/// The first ones of some computations, so many, whose results are kept.
pub fn works_of(
    alloc: Global,
    seen: &Seen<'_>,
    kinds: &[Computation],
    count: usize,
) -> Result<Works, NoMemory> {
    let mut works = Works {
        kinds: Vec::new(alloc),
        there: Grid::new(alloc, 0, 0, false)?,
    };
    for kind in kinds {
        if works.kinds.len() < count {
            works.kinds.push(*kind)?;
        }
    }
    works.there = where_there(alloc, seen, &works)?;
    Ok(works)
}

/// The ways where computations whose results are there are left out, so that they read nothing.
pub fn spared_ways(alloc: Global, seen: &Seen<'_>, works: &Works) -> Result<Ways, NoMemory> {
    let mut needless = Vec::from_slice(alloc, seen.ways.needless.as_slice())?;
    for place in 0..seen.code.len() {
        if is_there(seen, works, place) {
            note(&mut needless, place);
        }
    }
    Ok(Ways {
        nexts: Vec::from_slice(alloc, seen.ways.nexts.as_slice())?,
        needless,
        walked: Vec::from_slice(alloc, seen.ways.walked.as_slice())?,
        turned: Vec::from_slice(alloc, seen.ways.turned.as_slice())?,
        reached: Vec::from_slice(alloc, seen.ways.reached.as_slice())?,
        joins: Vec::from_slice(alloc, seen.ways.joins.as_slice())?,
    })
}

// Whether the result of the computation at a place is there.
fn is_there(seen: &Seen<'_>, works: &Works, place: usize) -> bool {
    match at(seen.code, place) {
        Some(instr) => match seen.work_in(works, instr, place) {
            Some(number) => works.there.has(place, number),
            None => false,
        },
        None => false,
    }
}

// Collects computations that are done another time while they are among the last 64 different ones.
fn collect(alloc: Global, seen: &Seen<'_>, works: &mut Works) -> Result<(), NoMemory> {
    let mut recent = Recent {
        computations: Vec::new(alloc),
        oldest: 0,
    };
    let mut place = 0usize;
    for instr in seen.code {
        if is_at(seen.ways.reached.as_slice(), place) && works.kinds.len() < 8 {
            if let Some(c) = seen.work_of(*instr, place) {
                let is_again = recent.note(c)?;
                if is_again && kind_in(works.kinds.as_slice(), c).is_none() {
                    works.kinds.push(c)?;
                }
            }
        }
        place = place.saturating_add(1);
    }
    Ok(())
}

// The last 64 different computations.
#[derive(Drop)]
struct Recent {
    computations: Vec<Computation>,
    // the one that is forgotten next
    oldest: usize,
}

impl Recent {
    // Notes a computation, and says whether it was noted before.
    fn note(&mut self, c: Computation) -> Result<bool, NoMemory> {
        if kind_in(self.computations.as_slice(), c).is_some() {
            return Ok(true);
        }
        if self.computations.len() < 64 {
            self.computations.push(c)?;
        } else if self.oldest < self.computations.len() {
            self.computations[self.oldest] = c;
            self.oldest = (self.oldest + 1) % 64;
        }
        Ok(false)
    }
}

// At how many places a computation is done whose result is there.
fn uses_of(seen: &Seen<'_>, works: &Works, number: usize) -> usize {
    let mut uses = 0usize;
    let mut place = 0usize;
    for instr in seen.code {
        let is_done = match seen.work_in(works, *instr, place) {
            Some(kind) => kind == number,
            None => false,
        };
        if is_done && works.there.has(place, number) {
            uses = uses.saturating_add(1);
        }
        place = place.saturating_add(1);
    }
    uses
}

// For each place the computations whose results are there whenever a run comes to it.
fn where_there(alloc: Global, seen: &Seen<'_>, works: &Works) -> Result<Grid, NoMemory> {
    let count = works.kinds.len();
    let mut there = Grid::new(alloc, seen.code.len(), count, true)?;
    for number in 0..count {
        there.put(0, number, false);
    }
    for _pass in seen.code {
        if !spread(&mut there, seen, works) {
            return Ok(there);
        }
    }
    Ok(there)
}

// Takes from the sets behind each instruction what is not sure, and says whether that changed one.
fn spread(there: &mut Grid, seen: &Seen<'_>, works: &Works) -> bool {
    let mut is_changed = false;
    let mut place = 0usize;
    for instr in seen.code {
        if is_at(seen.ways.reached.as_slice(), place)
            && spread_at(there, seen, works, *instr, place)
        {
            is_changed = true;
        }
        place = place.saturating_add(1);
    }
    is_changed
}

fn spread_at(there: &mut Grid, seen: &Seen<'_>, works: &Works, instr: Instr, place: usize) -> bool {
    match seen.ways.next(place) {
        Next::Nowhere => false,
        Next::One(to) => narrow(there, seen, works, instr, place, to),
        Next::Two(to, behind) => {
            let first = narrow(there, seen, works, instr, place, to);
            let second = narrow(there, seen, works, instr, place, behind);
            first || second
        }
    }
}

// Takes from the set of a place what is not there behind an instruction that leads to it.
fn narrow(
    there: &mut Grid,
    seen: &Seen<'_>,
    works: &Works,
    instr: Instr,
    place: usize,
    to: usize,
) -> bool {
    let done = seen.work_in(works, instr, place);
    let mut is_changed = false;
    for number in 0..works.kinds.len() {
        let is_done = match done {
            Some(kind) => kind == number,
            None => false,
        };
        let is_lost = match target_of(instr) {
            Some(local) => is_operand(works.kinds[number], local),
            None => false,
        };
        let is_sure = (is_done || there.has(place, number)) && !is_lost;
        if !is_sure && there.put(to, number, false) {
            is_changed = true;
        }
    }
    is_changed
}
