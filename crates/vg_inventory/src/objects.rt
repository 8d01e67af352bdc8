// Live objects and methods.
use crate::known::Known;
use crate::names::put_class;
use std::alloc::Global;
use vg_base::{NoMemory, Row};
use vg_core::Cell;
use vg_layout::Kept;
use vg_live::Reason;

/// The classes that have live objects of their own, in order of the text.
pub fn objects_of(alloc: Global, known: Known<'_>) -> Result<Row<Kept>, NoMemory> {
    let classes = known.program.tables.classes.len();
    let counts = own_counts(alloc, known, classes)?;
    let mut kept = Row::new(alloc);
    let mut class = 0u16;
    for count in counts.as_slice() {
        if *count > 0 {
            let mut name = Row::new(alloc);
            put_class(&mut name, known, class)?;
            kept.push(Kept {
                class: name,
                count: *count,
            })?;
        }
        class = class.saturating_add(1);
    }
    Ok(kept)
}

// How many live objects each of so many classes has itself.
fn own_counts(alloc: Global, known: Known<'_>, classes: usize) -> Result<Vec<u32>, NoMemory> {
    let mut counts = Vec::from_elem(alloc, 0, classes)?;
    let live = known.live.cells.as_slice();
    for (place, cell) in known.cells.iter().enumerate() {
        match cell {
            Cell::Object(class, _) => {
                if is_live(live, place) {
                    count_one(&mut counts, usize::from(*class));
                }
            }
            Cell::Array(_, _) => {}
        }
    }
    Ok(counts)
}

fn count_one(counts: &mut Vec<u32>, class: usize) {
    if class < counts.len() {
        counts[class] = counts[class].saturating_add(1);
    }
}

fn is_live(reasons: &[Option<Reason>], place: usize) -> bool {
    match reasons.get(place) {
        Some(Some(_)) => true,
        _ => false,
    }
}

/// How many objects are live.
pub fn count_objects(known: Known<'_>) -> u32 {
    let mut count = 0u32;
    let live = known.live.cells.as_slice();
    for (place, cell) in known.cells.iter().enumerate() {
        match cell {
            Cell::Object(_, _) => {
                if is_live(live, place) {
                    count = count.saturating_add(1);
                }
            }
            Cell::Array(_, _) => {}
        }
    }
    count
}

/// How many methods are live.
pub fn count_methods(known: Known<'_>) -> u32 {
    let mut count = 0u32;
    for reason in known.live.methods.as_slice() {
        match reason {
            Some(_) => count = count.saturating_add(1),
            None => {}
        }
    }
    count
}
