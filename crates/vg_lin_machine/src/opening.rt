// Calls that are opened.
ghost use Rattle.std.specs.Prelude.{◌≡◌, [], ◌∷◌, ◌++◌, map, reverse, IfOk, OnOk, slice_get};
ghost use Rattle.vg_meaning.specs.History.{Calling};
ghost use Rattle.vg_lin.specs.Steps.{open_below, noted};
ghost use Rattle.vg_lin.specs.Meaning.{language, call_of};
ghost use Rattle.vg_lin_states.specs.Programs.{program_of};

use crate::frame::Frame;
use std::alloc::Global;
use std::marker::Model;
use vg_base::{NoMemory, Row};
use vg_lin_states::LinProgram;

/// The open calls at an opening, the one that is opened first.
#[derive(Drop)]
pub struct Opening {
    methods: Row<u16>,
}

impl Model for Opening {
    ghost use Rattle.std.specs.Prelude.{List, map};
    ghost use Rattle.vg_meaning.specs.History.{Active, Calling};

    ghost Value = { List Active };

    ghost view = { λ o. map Calling o.methods };
}

impl Opening {
    /// No open call. It takes no memory.
    pub fn new(alloc: Global) -> Self
        ensures { result ≡ [] }
    {
        Opening {
            methods: Row::new(alloc),
        }
    }

    /// The methods that are called, by their numbers in the order of the text.
    pub fn methods(&self) -> &[u16]
        ensures { map Calling result.now ≡ self.now }
    {
        self.methods.as_slice()
    }

    /// One call more, which was opened before the others.
    pub fn push(&mut self, method: u16) -> Result<(), NoMemory>
        ensures { OnOk result (self.new ≡ self.old ++ Calling method ∷ []) }
    {
        self.methods.push(method)?;
        Ok(())
    }
}

/// The method that a procedure is, where it is one.
pub fn named(program: &LinProgram, proc: usize) -> Option<u16>
    ensures { call_of result ≡ (language (program_of program.now)).named proc }
{
    match program.procedure(proc) {
        Some(procedure) => procedure.method(),
        None => None,
    }
}

/// Notes an opening, where the procedure that begins is a method. The newest frames and openings are the last.
pub fn note(
    alloc: Global,
    program: &LinProgram,
    proc: usize,
    frames: &[Frame],
    openings: &mut Vec<Opening>,
) -> Result<(), NoMemory>
    ensures { let l = language (program_of program.now) in
        OnOk result (reverse openings.new.items ≡ noted (l.named proc) (open_below l (reverse frames.now)) (reverse openings.old.items)) }
{
    match named(program, proc) {
        Some(method) => {
            openings.push(open_calls(alloc, program, method, frames)?)?;
            Ok(())
        }
        None => Ok(()),
    }
}

fn open_calls(
    alloc: Global,
    program: &LinProgram,
    method: u16,
    frames: &[Frame],
) -> Result<Opening, NoMemory>
    ensures { IfOk result (λ o. o ≡ Calling method ∷ open_below (language (program_of program.now)) (reverse frames.now)) }
{
    let mut opening = Opening::new(alloc);
    opening.push(method)?;
    for place in 0..frames.len() {
        add_named(program, &frames[frames.len() - 1 - place], &mut opening)?;
    }
    Ok(opening)
}

fn add_named(program: &LinProgram, frame: &Frame, opening: &mut Opening) -> Result<(), NoMemory>
    ensures { let l = language (program_of program.now) in OnOk result (opening.new ≡ opening.old ++ open_below l (frame.now ∷ [])) }
{
    match named(program, frame.proc()) {
        Some(method) => opening.push(method),
        None => Ok(()),
    }
}
