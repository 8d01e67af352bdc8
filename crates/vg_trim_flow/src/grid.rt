// Sets of locals, one for each place of code.
use std::alloc::Global;
use vg_base::NoMemory;

/// For each place of code a set of locals.
#[derive(Drop)]
pub struct Grid {
    cells: Vec<bool>,
    locals: usize,
}

impl Grid {
    /// For so many places, each set empty or each full.
    pub fn new(alloc: Global, places: usize, locals: usize, full: bool) -> Result<Self, NoMemory> {
        let cells = Vec::from_elem(alloc, full, places.saturating_mul(locals))?;
        Ok(Grid { cells, locals })
    }

    /// How many locals there are.
    pub fn locals(&self) -> usize {
        self.locals
    }

    /// Whether the set of a place has a local.
    pub fn has(&self, place: usize, local: usize) -> bool {
        let at = place.saturating_mul(self.locals).saturating_add(local);
        local < self.locals && at < self.cells.len() && self.cells[at]
    }

    /// Puts a local into the set of a place, or takes it out, and says whether that changed the set.
    pub fn put(&mut self, place: usize, local: usize, is_in: bool) -> bool {
        let at = place.saturating_mul(self.locals).saturating_add(local);
        if local < self.locals && at < self.cells.len() && self.cells[at] != is_in {
            self.cells[at] = is_in;
            return true;
        }
        false
    }
}
