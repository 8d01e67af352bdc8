// What the values of locals are at most.
use std::alloc::Global;
use vg_base::NoMemory;
use vg_lin::{Comparison, Computation, Instr, Operand, Operator, Plain, Test};
use vg_trim_flow::{Given, Next, bytes_to, full, next_in, note, reads_of, target_of, width_of};

// So many cells are the most for which it is worth the time to look.
const MOST_CELLS: usize = 4_000_000;
// Each sweep takes the time of one walk over the code.
const MOST_SWEEPS: u8 = 40;

/// For each place of code what the value of each local is at most, whenever a run comes there.
#[derive(Drop)]
pub struct Ranges {
    mosts: Vec<u32>,
    locals: usize,
}

impl Ranges {
    /// Nothing is known.
    pub fn none(alloc: Global) -> Self {
        Ranges {
            mosts: Vec::new(alloc),
            locals: 0,
        }
    }

    /// What the value of a local is at most at a place: the largest number where nothing is known.
    pub fn most(&self, place: usize, local: usize) -> u32 {
        let at = place.saturating_mul(self.locals).saturating_add(local);
        if local < self.locals && at < self.mosts.len() {
            self.mosts[at]
        } else {
            u32::MAX
        }
    }

    /// The same of an operand.
    pub fn most_of(&self, place: usize, value: Operand) -> u32 {
        match value {
            Operand::Local(local) => self.most(place, usize::from(local)),
            Operand::Known(number) => number,
        }
    }

    // Notes that a value may be as large as this, and says whether it was not noted before.
    fn raise(&mut self, place: usize, local: usize, most: u32) -> bool {
        let at = place.saturating_mul(self.locals).saturating_add(local);
        if local < self.locals && at < self.mosts.len() && self.mosts[at] < most {
            self.mosts[at] = most;
            return true;
        }
        false
    }
}

/// What is known of values at a place.
#[derive(Clone, Copy)]
pub struct Spot<'a> {
    pub ranges: &'a Ranges,
    pub place: usize,
}

impl Spot<'_> {
    /// What an operand is at most there.
    pub fn most_of(&self, value: Operand) -> u32 {
        self.ranges.most_of(self.place, value)
    }
}

/// What an instruction at a place gives a local is at most this.
pub fn result_most(ranges: &Ranges, place: usize, instr: Instr) -> u32 {
    match instr {
        Instr::Plain(Plain::Copy(_, value)) => ranges.most_of(place, value),
        Instr::Plain(Plain::Compute(c)) => {
            computed_most(
                c,
                ranges.most_of(place, c.left),
                ranges.most_of(place, c.right),
            )
        }
        Instr::Plain(Plain::Load(_, width, _, _)) => full(width),
        Instr::Plain(Plain::ReadDevice(_, _)) => 255,
        _ => u32::MAX,
    }
}

/// What a computation gives is at most this, where its operands are at most these.
pub fn computed_most(c: Computation, left: u32, right: u32) -> u32 {
    let made = match c.operator {
        Operator::Plus => left.checked_add(right),
        Operator::Times => left.checked_mul(right),
        Operator::And => Some(lesser(left, right)),
        Operator::Or => joined(greater(left, right)),
        Operator::Xor => joined(greater(left, right)),
        Operator::ShiftRight => Some(shifted(left, c.right)),
        _ => None,
    };
    match made {
        Some(most) => lesser(most, full(c.width)),
        None => full(c.width),
    }
}

// Bits of both come to no more bytes than both have.
fn joined(most: u32) -> Option<u32> {
    if most < 256 {
        Some(255)
    } else if most < 65_536 {
        Some(65_535)
    } else {
        None
    }
}

// What is left of a value that is shifted right.
fn shifted(most: u32, by: Operand) -> u32 {
    match by {
        Operand::Known(count) => { if count < 32 { most >> count } else { most } }
        Operand::Local(_) => most,
    }
}

fn lesser(first: u32, second: u32) -> u32 {
    if second < first { second } else { first }
}

fn greater(first: u32, second: u32) -> u32 {
    if first < second { second } else { first }
}

/// What a local is at most where a test came out so.
#[derive(Clone, Copy)]
pub struct Limit {
    pub local: u8,
    pub most: u32,
}

// The limit of the left operand of a test that holds.
fn met(ranges: &Ranges, place: usize, test: Test) -> Option<Limit> {
    let left = ranges.most_of(place, test.left);
    let right = ranges.most_of(place, test.right);
    if left <= full(test.width) && tells_less(test, left, right) {
        limit_of(test.left, right.saturating_sub(1))
    } else {
        None
    }
}

// The limit of the right operand of a test that does not hold.
fn unmet(ranges: &Ranges, place: usize, test: Test) -> Option<Limit> {
    let left = ranges.most_of(place, test.left);
    let right = ranges.most_of(place, test.right);
    if right <= full(test.width) && tells_less(test, left, right) {
        limit_of(test.right, left)
    } else {
        None
    }
}

fn limit_of(value: Operand, most: u32) -> Option<Limit> {
    match value {
        Operand::Local(local) => Some(Limit { local, most }),
        Operand::Known(_) => None,
    }
}

/// Whether a test says of operands that are at most these whether the left one is less, as numbers from 0.
pub fn tells_less(test: Test, left: u32, right: u32) -> bool {
    let half = full(test.width) / 2;
    match test.comparison {
        Comparison::Below => true,
        Comparison::Less => left <= half && right <= half,
        Comparison::Same => false,
    }
}

/// How a test at a place comes out, where that is known by what its operands are at most.
pub fn decided(ranges: &Ranges, place: usize, test: Test) -> Option<bool> {
    let left = ranges.most_of(place, test.left);
    let right = ranges.most_of(place, test.right);
    if !tells_less(test, left, right) {
        return None;
    }
    if right == 0 {
        return Some(false);
    }
    match test.right {
        Operand::Known(number) => {
            if left < number && number <= full(test.width) {
                Some(true)
            } else {
                None
            }
        }
        Operand::Local(_) => None,
    }
}

/// What the values of locals are at most: nothing is known where that takes too long.
pub fn find_ranges(alloc: Global, given: Given<'_>, nexts: &[Next]) -> Result<Ranges, NoMemory> {
    let locals = given.widths.len();
    let cells = nexts.len().saturating_mul(locals);
    if cells > MOST_CELLS {
        return Ok(Ranges::none(alloc));
    }
    let mut search = Search {
        given,
        nexts,
        ranges: Ranges {
            mosts: Vec::from_elem(alloc, 0u32, cells)?,
            locals,
        },
        reached: Vec::from_elem(alloc, false, nexts.len())?,
        due: Vec::from_elem(alloc, false, nexts.len())?,
        stops: stops_of(alloc, given.code)?,
        sweep: 0,
    };
    search.begin();
    for sweep in 0..MOST_SWEEPS {
        search.sweep = sweep;
        if !search.spread() {
            return Ok(search.ranges);
        }
    }
    Ok(Ranges::none(alloc))
}

// What is found so far: from 0 up, until nothing changes.
#[derive(Drop)]
struct Search<'a> {
    given: Given<'a>,
    nexts: &'a [Next],
    ranges: Ranges,
    // places to which a run may come
    reached: Vec<bool>,
    // places at which more was noted since what is behind them was looked at
    due: Vec<bool>,
    // where what grows from turn to turn may stop
    stops: Vec<u32>,
    sweep: u8,
}

impl Search<'_> {
    // Nothing is known where a procedure begins.
    fn begin(&mut self) {
        for local in 0..self.ranges.locals {
            let width = width_of(self.given.widths, (local % 256) as u8);
            self.ranges.raise(0, local, full(width));
        }
        note(&mut self.reached, 0);
        note(&mut self.due, 0);
    }

    // Looks at what is behind the places that are due, and says whether there was one.
    fn spread(&mut self) -> bool {
        let code = self.given.code;
        let mut is_changed = false;
        let mut place = 0usize;
        for instr in code {
            if self.take_due(place) {
                self.spread_at(*instr, place);
                is_changed = true;
            }
            place = place.saturating_add(1);
        }
        is_changed
    }

    // Whether a place is due; it is due no longer.
    fn take_due(&mut self, place: usize) -> bool {
        if place < self.due.len() && self.due[place] {
            self.due[place] = false;
            return true;
        }
        false
    }

    fn spread_at(&mut self, instr: Instr, place: usize) {
        match next_in(self.nexts, place) {
            Next::Nowhere => {}
            Next::One(to) => self.flow(instr, place, to, None),
            Next::Two(to, behind) => {
                let (there, here) = limits(&self.ranges, place, instr);
                self.flow(instr, place, to, there);
                self.flow(instr, place, behind, here);
            }
        }
    }

    // Brings what locals may be behind an instruction to a place to which it leads.
    fn flow(&mut self, instr: Instr, place: usize, to: usize, limit: Option<Limit>) {
        let target = target_of(instr);
        let result = result_most(&self.ranges, place, instr);
        let mut is_changed = note(&mut self.reached, to);
        for index in 0..self.ranges.locals {
            let local = (index % 256) as u8;
            let most = if is_local(target, local) {
                result
            } else {
                limited(self.ranges.most(place, index), local, limit)
            };
            if self.bring(place, to, local, most) {
                is_changed = true;
            }
        }
        if is_changed {
            note(&mut self.due, to);
        }
    }

    // Notes that a local may be as large as this at a place to which another one leads, and says whether that is more than was noted.
    fn bring(&mut self, from: usize, to: usize, local: u8, most: u32) -> bool {
        let all = full(width_of(self.given.widths, local));
        let index = usize::from(local);
        let most = lesser(most, all);
        if most <= self.ranges.most(to, index) {
            return false;
        }
        let risen = if to <= from { self.risen(most) } else { most };
        self.ranges.raise(to, index, lesser(risen, all))
    }

    // Where what grows from turn to turn stops.
    fn risen(&self, most: u32) -> u32 {
        if self.sweep < 2 {
            return most;
        }
        if self.sweep < 10 {
            for stop in self.stops.as_slice() {
                if most <= *stop {
                    return *stop;
                }
            }
        }
        full(bytes_to(most))
    }
}

// The limits where a branch is taken, and where it is not.
fn limits(ranges: &Ranges, place: usize, instr: Instr) -> (Option<Limit>, Option<Limit>) {
    match instr {
        Instr::When(test, _) => (met(ranges, place, test), unmet(ranges, place, test)),
        Instr::Unless(test, _) => (unmet(ranges, place, test), met(ranges, place, test)),
        _ => (None, None),
    }
}

fn is_local(target: Option<u8>, local: u8) -> bool {
    match target {
        Some(set) => set == local,
        None => false,
    }
}

fn limited(most: u32, local: u8, limit: Option<Limit>) -> u32 {
    match limit {
        Some(limit) => {
            if limit.local == local {
                lesser(most, limit.most)
            } else {
                most
            }
        }
        None => most,
    }
}

// The known numbers of code, and the ends of bytes, in order.
fn stops_of(alloc: Global, code: &[Instr]) -> Result<Vec<u32>, NoMemory> {
    let mut stops = vec![in alloc; 255u32, 65_535, 16_777_215, u32::MAX]?;
    for instr in code {
        let reads = reads_of(*instr);
        note_number(&mut stops, reads.first)?;
        note_number(&mut stops, reads.second)?;
    }
    stops.sort()?;
    Ok(stops)
}

fn note_number(stops: &mut Vec<u32>, value: Option<Operand>) -> Result<(), NoMemory> {
    if let Some(Operand::Known(number)) = value {
        if 1 < number && stops.len() < 128 {
            stops.push(number)?;
            stops.push(number.saturating_add(1))?;
        }
    }
    Ok(())
}
