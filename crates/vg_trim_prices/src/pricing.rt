// How many words the code of a guess takes, about, by the order of its locals.
use crate::guess::Plan;
use crate::seating::{Laid, laid_in};
use crate::words::{is_call, words_of};
use std::alloc::Global;
use vg_base::NoMemory;
use vg_lin::Instr;
use vg_trim_flow::{Grid, Next, note, target_of};
use vg_trim_living::{find_live, is_behind};
use vg_trim_ways::plain_ways;

/// What the words of a guess depend on beside the order of its locals.
#[derive(Drop)]
pub struct Prices<'a> {
    pub code: &'a [Instr],
    pub widths: &'a [u8],
    /// How many parameters there are, which are the first locals.
    pub params: usize,
    /// For each local whether its value is wanted behind a call.
    pub lasting: Vec<bool>,
    /// For each local whether it is needed where code begins.
    pub first: Vec<bool>,
}

/// What the words of a guess with so many parameters depend on.
pub fn prices_of(alloc: Global, plan: &Plan, params: usize) -> Result<Prices<'_>, NoMemory> {
    let code = plan.code.as_slice();
    let widths = plan.widths.as_slice();
    let locals = widths.len();
    let ways = plain_ways(alloc, code, locals)?;
    let live = find_live(alloc, code, &ways, locals)?;
    let mut lasting = Vec::from_elem(alloc, false, locals)?;
    for place in 0..code.len() {
        if is_call(widths, code[place]) {
            note_lasting(&live, ways.next(place), code[place], &mut lasting);
        }
    }
    let mut first = Vec::new(alloc);
    for local in 0..locals {
        first.push(live.has(0, local))?;
    }
    Ok(Prices {
        code,
        widths,
        params,
        lasting,
        first,
    })
}

// Notes the locals that are needed behind a call and do not get its result.
fn note_lasting(live: &Grid, next: Next, instr: Instr, lasting: &mut Vec<bool>) {
    for local in 0..live.locals() {
        let is_result = match target_of(instr) {
            Some(target) => usize::from(target) == local,
            None => false,
        };
        if !is_result && is_behind(live, next, local) {
            note(lasting, local);
        }
    }
}

impl Prices<'_> {
    /// The words of the code, about, with the locals in this order.
    pub fn of(&self, alloc: Global, order: &[u8]) -> Result<usize, NoMemory> {
        let laid = laid_in(alloc, self, order)?;
        let mut words = laid.entry();
        for instr in self.code {
            words = words.saturating_add(words_of(&laid, *instr));
        }
        Ok(words)
    }
}
