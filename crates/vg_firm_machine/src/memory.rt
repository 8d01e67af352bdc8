// Columns.
use std::alloc::Global;
use vg_base::NoMemory;

/// The columns of a run, one behind another.
#[derive(Drop)]
pub struct Memory {
    values: Vec<u32>,
    starts: Vec<usize>,
}

impl Memory {
    /// No columns. It takes no memory.
    pub fn new(alloc: Global) -> Self {
        Memory {
            values: Vec::new(alloc),
            starts: Vec::new(alloc),
        }
    }

    /// A further column begins, without values.
    pub fn begin(&mut self) -> Result<(), NoMemory> {
        self.starts.push(self.values.len())?;
        Ok(())
    }

    /// A further value of the last column.
    pub fn push(&mut self, value: u32) -> Result<(), NoMemory> {
        self.values.push(value)?;
        Ok(())
    }

    /// The value at a place of a column, where it has one.
    pub fn load(&self, column: u16, index: usize) -> Option<u32> {
        let place = self.place(column, index)?;
        self.values.get(place).copied()
    }

    /// Sets the value at a place of a column, where it has one; and whether it has.
    pub fn store(&mut self, column: u16, index: usize, value: u32) -> bool {
        match self.place(column, index) {
            Some(place) if place < self.values.len() => {
                self.values[place] = value;
                true
            }
            _ => false,
        }
    }

    // Where the value at a place of a column stands.
    fn place(&self, column: u16, index: usize) -> Option<usize> {
        let column = usize::from(column);
        let start = self.starts.get(column).copied()?;
        let end = self
            .starts
            .get(column + 1)
            .copied()
            .unwrap_or(self.values.len());
        let place = start.checked_add(index)?;
        if place < end { Some(place) } else { None }
    }
}
