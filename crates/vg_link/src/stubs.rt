// The stubs of handlers, and the slots that lead to them.
ghost use Rattle.std.specs.Prelude.{◌≡◌, ◌+◌, ◌*◌, ◌<◌, ◌≤◌, ◌++◌, length, IfOk, OnOk};
ghost use Rattle.vg_templates.specs.Idle.{stub};
ghost use Rattle.vg_put_operations.specs.Coded.{code_from};
ghost use Rattle.vg_laid.specs.Laid.{index_in, stub_at, stubs_code};
ghost use Rattle.vg_link.specs.Linking.{handler_in, with_new, stubs_of, slot_of, slots_upto};

use crate::unlinked::Handler;
use avr_instr::Instr;
use std::alloc::Global;
use vg_base::{NoMemory, Row};
use vg_put_operations::code_of;

/// The procedure that handles an interrupt.
pub fn handler_in(handlers: &[Handler], vector: u8) -> Option<u16>
    ensures { result ≡ handler_in handlers.now vector }
{
    match handlers {
        [] => None,
        [first, rest @ ..] => {
            if first.vector == vector {
                Some(first.procedure)
            } else {
                handler_in(rest, vector)
            }
        }
    }
}

// The first index at which a procedure stands in a list, or how many the list has.
fn index_in(list: &[u16], procedure: u16) -> usize
    ensures is { result ≡ index_in list.now procedure }
    ensures low { result ≤ length list.now }
{
    match list {
        [] => 0,
        [first, rest @ ..] => {
            if *first == procedure {
                0
            } else {
                1 + index_in(rest, procedure)
            }
        }
    }
}

fn push_new(list: &mut Row<u16>, procedure: u16) -> Result<(), NoMemory>
    ensures { OnOk result (list.new ≡ with_new list.old procedure) }
{
    if index_in(list.as_slice(), procedure) < list.len() {
        return Ok(());
    }
    list.push(procedure)
}

/// The procedures that are handlers, each once.
pub fn stubs_of(alloc: Global, handlers: &[Handler]) -> Result<Row<u16>, NoMemory>
    ensures { IfOk result (λ list. list ≡ stubs_of handlers.now) }
{
    let mut list = Row::new(alloc);
    for handler in handlers {
        push_new(&mut list, handler.procedure)?;
    }
    Ok(list)
}

/// The word address behind so many stubs, which stand behind the piece in which the program waits. The error is want of memory: no memory has room for so
/// many words.
pub fn word_behind_stubs(idle: u32, stubs: usize) -> Result<u32, NoMemory>
    ensures { IfOk result (λ words. words ≡ idle + 4 + 3 * stubs) }
{
    if stubs > 1_000_000_000 {
        return Err(NoMemory);
    }
    match idle.checked_add(4 + 3 * stubs as u32) {
        Some(words) => Ok(words),
        None => Err(NoMemory),
    }
}

// A stub calls a handler and returns from the interrupt.
fn put_stub(code: &mut Row<Instr>, entry: u16) -> Result<(), NoMemory>
    ensures { OnOk result (code.new ≡ code.old ++ stub entry) }
{
    code.push(Instr::Call(entry))?;
    code.push(Instr::Reti)
}

/// The stubs of these procedures, by their code numbers.
pub fn put_stubs(code: &mut Row<Instr>, codes: &[u16], stubs: &[u16]) -> Result<(), NoMemory>
    ensures { OnOk result (code.new ≡ code.old ++ stubs_code codes.now stubs.now) }
{
    for procedure in stubs {
        put_stub(code, code_of(codes, *procedure))?;
    }
    Ok(())
}

// Where the slot of a vector leads.
fn slot_of(handlers: &[Handler], stubs: &[u16], at: u16, vector: u8) -> Option<u16>
    requires { at + 3 * length stubs.now < 65536 }
    ensures { result ≡ slot_of stubs.now at (handler_in handlers.now vector) }
{
    match handler_in(handlers, vector) {
        Some(procedure) => Some(at + 3 * index_in(stubs, procedure) as u16),
        None => None,
    }
}

/// Where the slots of all vectors lead, where the stubs stand from a word address on.
pub fn slots(
    alloc: Global,
    handlers: &[Handler],
    stubs: &[u16],
    at: u16,
) -> Result<Row<Option<u16>>, NoMemory>
    requires { at + 3 * length stubs.now < 65536 }
    ensures { IfOk result (λ slots. slots ≡ slots_upto handlers.now stubs.now at 35) }
{
    let mut slots = Row::new(alloc);
    for vector in 0..35u8 {
        slots.push(slot_of(handlers, stubs, at, vector))?;
    }
    Ok(slots)
}
