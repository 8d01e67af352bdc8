// Branches that always lead to one place.
use std::alloc::Global;
use vg_base::NoMemory;
use vg_lin::{Instr, Operand};
use vg_trim_flow::{Grid, Next, Ways, counts, is_at, next_in, reads_of};
use vg_trim_living::{Life, is_filled_test};
use vg_trim_ranges::{Ranges, decided};
use vg_trim_ways::Led;

/// What is known of the values of the locals of code.
#[derive(Drop)]
pub struct Values<'a> {
    pub code: &'a [Instr],
    pub widths: &'a [u8],
    /// For each place the locals that are not 0 there.
    pub filled: &'a Grid,
    pub ranges: &'a Ranges,
    /// Whether no value ever waits: then instructions may be left out.
    pub is_free: bool,
}

/// For each place the one to which the branch there always leads, where there is such a one.
pub fn sure_ways(
    alloc: Global,
    values: &Values<'_>,
    led: &Led,
) -> Result<Vec<Option<usize>>, NoMemory> {
    let mut ways = Vec::new(alloc);
    let mut place = 0usize;
    for instr in values.code {
        let next = next_in(led.nexts.as_slice(), place);
        let way = if is_at(led.paid.as_slice(), place) {
            None
        } else {
            sure_way(values, *instr, place, next)
        };
        ways.push(way)?;
        place = place.saturating_add(1);
    }
    Ok(ways)
}

// The place to which a branch always leads. The one behind it is that only where the branch is left out, so no step counts that is made there.
fn sure_way(values: &Values<'_>, instr: Instr, place: usize, next: Next) -> Option<usize> {
    let Next::Two(to, behind) = next else {
        return None;
    };
    if is_filled_test(values.filled, values.widths, instr, place)
        || is_taken(values, instr, place, true)
    {
        return Some(to);
    }
    let may_go = values.is_free && !counts(values.code, place) && behind == place.saturating_add(1);
    if may_go && is_taken(values, instr, place, false) {
        Some(behind)
    } else {
        None
    }
}

// Whether a branch is known to be taken, or known not to be.
fn is_taken(values: &Values<'_>, instr: Instr, place: usize, is_so: bool) -> bool {
    match instr {
        Instr::When(test, _) => decided(values.ranges, place, test) == Some(is_so),
        Instr::Unless(test, _) => decided(values.ranges, place, test) == Some(!is_so),
        _ => false,
    }
}

/// Whether there was a sure way of a branch that reads a local which nothing else needs; it is sure no longer. What is known of a local is known only where
/// that is needed.
pub fn take_back(code: &[Instr], life: &Life, ways: &mut Vec<Option<usize>>) -> bool {
    let mut is_changed = false;
    for place in 0..ways.len() {
        if place < code.len() && place < ways.len() && ways[place].is_some() {
            let reads = reads_of(code[place]);
            if !is_needed(life, place, reads.first) || !is_needed(life, place, reads.second) {
                ways[place] = None;
                is_changed = true;
            }
        }
    }
    is_changed
}

/// Whether each local is needed that is read by a branch which is left out.
pub fn are_needed(code: &[Instr], ways: &Ways, life: &Life) -> bool {
    let mut place = 0usize;
    for instr in code {
        let reads = reads_of(*instr);
        let is_needed = is_needed(life, place, reads.first) && is_needed(life, place, reads.second);
        if is_at(ways.needless.as_slice(), place) && !is_needed {
            return false;
        }
        place = place.saturating_add(1);
    }
    true
}

fn is_needed(life: &Life, place: usize, value: Option<Operand>) -> bool {
    match value {
        Some(Operand::Local(local)) => life.live.has(place, usize::from(local)),
        _ => true,
    }
}
