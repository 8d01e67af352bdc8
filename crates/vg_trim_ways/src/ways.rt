// The ways through code, where some branches always lead to one place.
use crate::leading::{Led, unled};
use std::alloc::Global;
use vg_base::NoMemory;
use vg_lin::Instr;
use vg_trim_flow::{Next, Ways, joins, nexts_of, note, reach};

/// The ways that are led so, where branches lead to the places to which they lead for sure.
pub fn ways_of(alloc: Global, led: &Led, sure: &[Option<usize>]) -> Result<Ways, NoMemory> {
    let mut nexts = Vec::from_slice(alloc, led.nexts.as_slice())?;
    let mut needless = Vec::from_elem(alloc, false, nexts.len())?;
    for place in 0..nexts.len() {
        if let Some(Some(to)) = sure.get(place) {
            if place < nexts.len() {
                nexts[place] = Next::One(*to);
            }
            note(&mut needless, place);
        }
    }
    let reached = reach(alloc, nexts.as_slice())?;
    let joins = joins(alloc, nexts.as_slice(), reached.as_slice())?;
    Ok(Ways {
        nexts,
        needless,
        walked: copy_of(alloc, led.walked.as_slice())?,
        turned: copy_of(alloc, led.turned.as_slice())?,
        reached,
        joins,
    })
}

fn copy_of(alloc: Global, noted: &[bool]) -> Result<Vec<bool>, NoMemory> {
    Ok(Vec::from_slice(alloc, noted)?)
}

/// The ways of code as it stands.
pub fn plain_ways(alloc: Global, code: &[Instr], locals: usize) -> Result<Ways, NoMemory> {
    let led = unled(alloc, nexts_of(alloc, code)?, locals)?;
    ways_of(alloc, &led, &[])
}
