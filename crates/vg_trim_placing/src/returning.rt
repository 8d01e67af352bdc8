// Returns and stops in whose place others may jump.
use std::alloc::Global;
use vg_base::{NoMemory, Row};
use vg_lin::{Instr, Operand, Plain};
use vg_trim_flow::is_same;

/// How code ends.
#[derive(Clone, Copy)]
pub enum Ending {
    /// It gives so many bytes of a value back.
    Gives(u8, Operand),
    /// It stops with this code.
    Stops(u8),
}

// A place where code ends.
#[derive(Clone, Copy)]
struct End {
    ending: Ending,
    place: u16,
}

/// A procedure that is laid, as far as it says how long its endings are.
#[derive(Clone, Copy)]
pub struct Shape {
    /// Whether it has parameters.
    pub has_params: bool,
    /// How many bytes its locals have.
    pub bytes: usize,
    /// Whether no value ever waits: then code may jump from anywhere to anywhere.
    pub is_free: bool,
}

/// Places where code ends, at most 16, each with another ending.
#[derive(Drop)]
pub struct Ends {
    ends: Vec<End>,
}

impl Ends {
    /// None.
    pub fn new(alloc: Global) -> Self {
        Ends {
            ends: Vec::new(alloc),
        }
    }

    /// The place with this ending.
    pub fn place_of(&self, ending: Ending) -> Option<u16> {
        for end in self.ends.as_slice() {
            if is_ending(end.ending, ending) {
                return Some(end.place);
            }
        }
        None
    }

    /// Notes one more, where there is room.
    pub fn note(&mut self, ending: Ending, place: usize) -> Result<(), NoMemory> {
        if self.ends.len() < 16 && place < 65_536 {
            let place = place as u16;
            self.ends.push(End { ending, place })?;
        }
        Ok(())
    }
}

/// The code of a procedure in which a return becomes a jump to a later one that does the same, where that is shorter. The last ones of 16 kinds are jumped to.
pub fn shared(alloc: Global, code: Row<Instr>, shape: Shape) -> Result<Row<Instr>, NoMemory> {
    let mut instrs = code.into_vec();
    let mut ends = Ends::new(alloc);
    let count = instrs.len();
    for step in 0..count {
        let place = count - 1 - step;
        if place < instrs.len() {
            if let Some(ending) = long_ending(instrs[place], shape) {
                match ends.place_of(ending) {
                    Some(to) => instrs[place] = Instr::Jump(to),
                    None => ends.note(ending, place)?,
                }
            }
        }
    }
    Ok(Row::from_vec(instrs))
}

/// How an instruction ends code, if it takes more words than a jump and may be one.
pub fn long_ending(instr: Instr, shape: Shape) -> Option<Ending> {
    match instr {
        Instr::Return(width, value) => {
            if is_long(width, shape) {
                Some(Ending::Gives(width, value))
            } else {
                None
            }
        }
        Instr::Plain(Plain::Stop(code)) => {
            if shape.is_free {
                Some(Ending::Stops(code))
            } else {
                None
            }
        }
        _ => None,
    }
}

// Whether a return of so many bytes takes more words than a jump: those that load its value, and those that take down the frame or the saved registers.
fn is_long(width: u8, shape: Shape) -> bool {
    shape.has_params || usize::from(width).saturating_add(shape.bytes) >= 2
}

fn is_ending(first: Ending, second: Ending) -> bool {
    match (first, second) {
        (Ending::Gives(width, value), Ending::Gives(bytes, other)) => {
            width == bytes && is_same(value, other)
        }
        (Ending::Stops(code), Ending::Stops(other)) => code == other,
        _ => false,
    }
}
