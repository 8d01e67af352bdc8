// How parameters arrive: in registers, or pushed.
ghost use Rattle.std.specs.Prelude.{◌≡◌, ◌+◌, ◌<◌, ◌≤◌, ◌++◌, IfOk, OnOk, length, take};
ghost use Rattle.vg_templates.specs.Calls.{sum_of, by_registers, lives_from};
ghost use Rattle.vg_templates.specs.Framed.{arriving, on_stack};
ghost use Rattle.vg_templates.specs.Living.{is_live};

use crate::living::is_live_at_entry;
use std::alloc::Global;
use vg_base::{NoMemory, Row};
use vg_lin::Instr;

/// The bytes of locals with these widths.
pub fn bytes_of(widths: &[u8]) -> u16
    requires { sum_of widths.now < 0x1000 }
    ensures { result ≡ sum_of widths.now }
{
    match widths {
        [] => 0,
        [width, rest @ ..] => u16::from(*width) + bytes_of(rest),
    }
}

// Whether parameters with these widths go in registers.
fn by_registers(widths: &[u8]) -> bool
    requires { sum_of widths.now < 0x1000 }
    ensures { result ≡ by_registers widths.now }
{
    widths.len() <= 4 && bytes_of(widths) <= 8
}

/// How many of the parameters, which are the first of these locals, are pushed: all of them, or none.
pub fn on_stack(widths: &[u8], params: u8) -> u8
    requires params { params ≤ length widths.now }
    requires small { sum_of (take params widths.now) < 0x1000 }
    ensures { result ≡ on_stack widths.now params }
{
    if by_registers(&widths[..usize::from(params)]) {
        return 0;
    }
    params
}

// Whether each of so many locals, from one on, is needed where code begins.
fn put_lives(
    alloc: Global,
    lives: &mut Row<bool>,
    code: &[Instr],
    local: u8,
    count: u8,
) -> Result<(), NoMemory>
    requires { local + count < 256 }
    ensures { OnOk result (lives.new ≡ lives.old ++ lives_from (λ k. is_live code.now k 0) local count) }
{
    if count == 0 {
        return Ok(());
    }
    let live = is_live_at_entry(alloc, code, local)?;
    lives.push(live)?;
    put_lives(alloc, lives, code, local + 1, count - 1)
}

/// Of each parameter that arrives in registers, whether it is needed. The error is want of memory.
pub fn arriving(
    alloc: Global,
    code: &[Instr],
    widths: &[u8],
    params: u8,
) -> Result<Row<bool>, NoMemory>
    requires params { params ≤ length widths.now }
    requires small { sum_of (take params widths.now) < 0x1000 }
    ensures { IfOk result (λ kept. kept ≡ arriving (λ k. is_live code.now k 0) widths.now params) }
{
    let mut kept = Row::new(alloc);
    if by_registers(&widths[..usize::from(params)]) {
        put_lives(alloc, &mut kept, code, 0, params)?;
    }
    Ok(kept)
}
