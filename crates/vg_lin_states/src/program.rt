// Programs of linear code that can be run.
ghost use Rattle.std.specs.Prelude.{◌≡◌, ◌<◌, ◌^◌, true, IfSome, slice_get};
ghost use Rattle.std.specs.Option.{option_map};
ghost use Rattle.vg_codes.specs.Codes.{code_in};
ghost use Rattle.vg_codes.specs.Dispatch.{is_within, procedure_for, dispatched};
ghost use Rattle.vg_lin.specs.Steps.{fetch};
ghost use Rattle.vg_lin.specs.Meaning.{codes_in};
ghost use Rattle.vg_lin_states.specs.Narrow.{is_narrow};
ghost use Rattle.vg_lin_states.specs.Programs.{code_from, found_from, handler_in, program_of};

use crate::procedure::AnyProc;
use vg_base::Row;
use vg_codes::Case;
use vg_lin::Instr;

/// The handler of an interrupt.
#[derive(Clone, Copy, Debug, PartialEq, Eq)]
pub struct Handler {
    /// The number of the interrupt's vector, from 1 to 34.
    pub vector: u8,
    /// The procedure that is called, by its number.
    pub procedure: u16,
}

/// A program of linear code.
#[derive(Drop)]
pub struct LinProgram {
    /// All procedures. A procedure's number is its index.
    pub procedures: Row<AnyProc>,
    /// The cases of each dispatch.
    pub dispatches: Row<Row<Case>>,
    /// The code numbers of procedures, by their numbers.
    pub codes: Row<u16>,
    /// The bytes of tables in flash, from the first address on at which tables stand.
    pub tables: Row<u8>,
    /// The bytes of the columns in RAM at the start.
    pub ram: Row<u8>,
    /// The handlers. Where two have the same vector, the first one counts.
    pub handlers: Row<Handler>,
    /// The number of the procedure with which a run begins.
    pub start: u16,
}

impl LinProgram {
    /// The procedure that a dispatch has for the number of an object.
    pub fn dispatched(&self, dispatch: u32, number: u32) -> Option<u16>
        ensures { result ≡ dispatched self.now.dispatches dispatch number }
    {
        match self.dispatches.as_slice().get(dispatch as usize) {
            Some(cases) => procedure_for(cases.as_slice(), number),
            None => None,
        }
    }

    /// The procedure with a number.
    pub fn procedure(&self, number: usize) -> Option<&AnyProc>
        ensures { option_map (λ procedure. procedure.now) result ≡ slice_get self.now.procedures number }
    {
        self.procedures.as_slice().get(number)
    }

    /// The instruction at a place of a procedure.
    pub fn instr(&self, procedure: usize, place: usize) -> Option<Instr>
        ensures is { result ≡ fetch (codes_in self.now.procedures) procedure place }
        ensures narrow { IfSome result (λ i. is_narrow i ≡ true) }
        ensures low { IfSome result (λ _. place < 2 ^ 63) }
    {
        match self.procedure(procedure) {
            Some(found) => found.instr(place),
            None => None,
        }
    }

    /// The code number of a procedure.
    pub fn code(&self, procedure: u16) -> u16
        ensures { result ≡ (program_of self.now).codes.code procedure }
    {
        match self.codes.as_slice().get(usize::from(procedure)) {
            Some(code) => *code,
            None => 0,
        }
    }

    /// The procedure whose code number stands in the low two bytes of a value.
    pub fn at_code(&self, value: u32) -> Option<usize>
        ensures { result ≡ (program_of self.now).codes.at_code (code_in value) }
    {
        found_in(self.codes.as_slice(), (value % 65536) as u16)
    }

    /// The procedure of an interrupt.
    pub fn handler(&self, vector: u8) -> Option<u16>
        ensures { result ≡ (program_of self.now).handler vector }
    {
        handler_in(self.handlers.as_slice(), vector)
    }
}

fn handler_in(handlers: &[Handler], vector: u8) -> Option<u16>
    ensures { result ≡ handler_in handlers.now vector }
{
    match handlers {
        [] => None,
        [handler, rest @ ..] => {
            if handler.vector == vector {
                Some(handler.procedure)
            } else {
                handler_in(rest, vector)
            }
        }
    }
}

fn procedure_for(cases: &[Case], number: u32) -> Option<u16>
    ensures { result ≡ procedure_for cases.now number }
{
    match cases {
        [] => None,
        [case, rest @ ..] => {
            if is_within(case.first, case.count, number) {
                Some(case.procedure)
            } else {
                procedure_for(rest, number)
            }
        }
    }
}

fn is_within(first: u16, count: u16, number: u32) -> bool
    ensures { result ≡ is_within first count number }
{
    u32::from(first) <= number && number < u32::from(first) + u32::from(count)
}

fn found_in(codes: &[u16], code: u16) -> Option<usize>
    ensures { result ≡ found_from 0 codes.now code }
{
    for (place, other) in codes.iter().enumerate() {
        if *other == code {
            return Some(place);
        }
    }
    None
}
