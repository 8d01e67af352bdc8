// Which places runs reach, and where ways meet.
use crate::flow::{Next, next_of};
use std::alloc::Global;
use vg_base::NoMemory;
use vg_lin::Instr;

/// The ways through a procedure.
#[derive(Drop)]
pub struct Ways {
    /// Where the instruction at each place leads.
    pub nexts: Vec<Next>,
    /// Places of branches that are always taken.
    pub needless: Vec<bool>,
    /// Locals that get numbers on ways that are left out.
    pub walked: Vec<bool>,
    /// Places of branches for which the other one stands, with its places the other way round.
    pub turned: Vec<bool>,
    /// Places to which a run may come.
    pub reached: Vec<bool>,
    /// Places to which runs may come from two others, or from one behind.
    pub joins: Vec<bool>,
}

impl Ways {
    /// Where the instruction at a place leads.
    pub fn next(&self, place: usize) -> Next {
        next_in(self.nexts.as_slice(), place)
    }
}

/// Where each instruction of code leads.
pub fn nexts_of(alloc: Global, code: &[Instr]) -> Result<Vec<Next>, NoMemory> {
    let mut nexts = Vec::new(alloc);
    let mut place = 0usize;
    for instr in code {
        nexts.push(next_of(*instr, place))?;
        place = place.saturating_add(1);
    }
    Ok(nexts)
}

/// Where the instruction at a place leads.
pub fn next_in(nexts: &[Next], place: usize) -> Next {
    match nexts.get(place) {
        Some(next) => *next,
        None => Next::Nowhere,
    }
}

/// What is noted of a place.
pub fn is_at(noted: &[bool], place: usize) -> bool {
    match noted.get(place) {
        Some(is) => *is,
        None => false,
    }
}

/// Notes a place, and says whether it was not noted before.
pub fn note(noted: &mut Vec<bool>, place: usize) -> bool {
    if place < noted.len() && !noted[place] {
        noted[place] = true;
        return true;
    }
    false
}

/// Places to which a run may come.
pub fn reach(alloc: Global, nexts: &[Next]) -> Result<Vec<bool>, NoMemory> {
    let mut reached = Vec::from_elem(alloc, false, nexts.len())?;
    note(&mut reached, 0);
    for _pass in nexts {
        if !reach_on(&mut reached, nexts) {
            return Ok(reached);
        }
    }
    Ok(reached)
}

// Notes the places behind those that are noted, and says whether there was a new one.
fn reach_on(reached: &mut Vec<bool>, nexts: &[Next]) -> bool {
    let mut is_new = false;
    let mut place = 0usize;
    for next in nexts {
        if is_at(reached.as_slice(), place) {
            let more = match *next {
                Next::Nowhere => false,
                Next::One(to) => note(reached, to),
                Next::Two(to, behind) => {
                    let first = note(reached, to);
                    let second = note(reached, behind);
                    first || second
                }
            };
            is_new = is_new || more;
        }
        place = place.saturating_add(1);
    }
    is_new
}

/// Places to which runs may come from two others, or from one behind.
pub fn joins(alloc: Global, nexts: &[Next], reached: &[bool]) -> Result<Vec<bool>, NoMemory> {
    let mut once = Vec::from_elem(alloc, false, nexts.len())?;
    let mut joins = Vec::from_elem(alloc, false, nexts.len())?;
    note(&mut once, 0);
    let mut place = 0usize;
    for next in nexts {
        if is_at(reached, place) {
            match *next {
                Next::Nowhere => {}
                Next::One(to) => come(&mut once, &mut joins, place, to),
                Next::Two(to, behind) => {
                    come(&mut once, &mut joins, place, to);
                    come(&mut once, &mut joins, place, behind);
                }
            }
        }
        place = place.saturating_add(1);
    }
    Ok(joins)
}

// Notes a way from one place to another.
fn come(once: &mut Vec<bool>, joins: &mut Vec<bool>, from: usize, to: usize) {
    let is_first = note(once, to);
    if !is_first || to <= from {
        note(joins, to);
    }
}
