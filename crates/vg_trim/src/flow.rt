// Where instructions lead, and what they change of what waits.
ghost use Rattle.std.specs.Prelude.{◌≡◌, ◌⊎◌, IsTrue, slice_get};
ghost use Rattle.vg_trim.specs.Flow.{effect_of_plain, effect_of, led_to, is_return, goes_next, LeadsAlong, ReturnsThere, ReturnsLater, FlowsAs};
ghost use Rattle.vg_trim.specs.Flow.{is_idle, IsOther, FlowsFreely};

use vg_lin::{Instr, Plain};

/// What an instruction changes of what waits.
#[derive(Clone, Copy)]
pub enum Effect {
    Nothing,
    /// A value of so many bytes waits.
    Pushes(u8),
    /// The newest value, of so many bytes, waits no more.
    Pops(u8),
    /// So many values wait no more.
    Takes(u8),
}

fn effect_of_plain(plain: Plain) -> Effect
    ensures { result ≡ effect_of_plain plain }
{
    match plain {
        Plain::Push(width, _) => Effect::Pushes(width),
        Plain::Pop(width, _) => Effect::Pops(width),
        _ => Effect::Nothing,
    }
}

fn effect_of(instr: Instr) -> Effect
    ensures { result ≡ effect_of instr }
{
    match instr {
        Instr::Plain(plain) => effect_of_plain(plain),
        Instr::Call(call) => Effect::Takes(call.pushed),
        _ => Effect::Nothing,
    }
}

fn same_effect(a: Effect, b: Effect) -> bool
    ensures { IsTrue result → a ≡ b }
{
    match (a, b) {
        (Effect::Nothing, Effect::Nothing) => true,
        (Effect::Pushes(v), Effect::Pushes(w)) => v == w,
        (Effect::Pops(v), Effect::Pops(w)) => v == w,
        (Effect::Takes(m), Effect::Takes(n)) => m == n,
        _ => false,
    }
}

/// The place to which an instruction may lead beside the next one.
fn led_to(instr: Instr) -> Option<u16>
    ensures { result ≡ led_to instr }
{
    match instr {
        Instr::When(_, to) => Some(to),
        Instr::Unless(_, to) => Some(to),
        Instr::Jump(to) => Some(to),
        _ => None,
    }
}

fn is_return(instr: Instr) -> bool
    ensures { result ≡ is_return instr }
{
    match instr {
        Instr::Return(_, _) => true,
        _ => false,
    }
}

/// Whether an instruction may lead to the next one.
fn goes_next(instr: Instr) -> bool
    ensures { result ≡ goes_next instr }
{
    match instr {
        Instr::Plain(Plain::Stop(_)) => false,
        Instr::Jump(_) => false,
        Instr::Return(_, _) => false,
        _ => true,
    }
}

/// Whether the newer instruction leads nowhere beside the next one, or where the older one leads.
fn leads_along(i: Instr, j: Instr) -> bool
    ensures { IsTrue result → LeadsAlong (led_to i) (led_to j) }
{
    match led_to(j) {
        None => true,
        Some(to) => match led_to(i) {
            None => false,
            Some(place) => place == to,
        },
    }
}

fn returns_there(code: &[Instr], place: u16) -> bool
    ensures { IsTrue result → ReturnsThere (slice_get code.now place) }
{
    match code.get(usize::from(place)) {
        Some(instr) => is_return(*instr),
        None => false,
    }
}

/// Whether the older instruction returns, and the newer one jumps to a later one that returns.
fn returns_later(newer: &[Instr], at: u16, i: Instr, j: Instr) -> bool
    ensures { IsTrue result → ReturnsLater newer.now at i j }
{
    match j {
        Instr::Jump(to) => is_return(i) && at < to && returns_there(newer, to),
        _ => false,
    }
}

/// Whether the newer instruction leads where it may.
fn leads(newer: &[Instr], at: u16, i: Instr, j: Instr) -> bool
    ensures { IsTrue result → LeadsAlong (led_to i) (led_to j) ⊎ ReturnsLater newer.now at i j }
{
    leads_along(i, j) || returns_later(newer, at, i, j)
}

/// Whether the newer instruction leads only where the older one leads, or to a next one that there is, or to a return as the older one is, and both do the
/// same with what waits.
pub fn flows_as(newer: &[Instr], at: u16, i: Instr, j: Instr) -> bool
    ensures { IsTrue result → FlowsAs newer.now at i j }
{
    same_effect(effect_of(i), effect_of(j))
        && leads(newer, at, i, j)
        && (!is_return(j) || is_return(i))
        && (!goes_next(j) || usize::from(at) + 1 < newer.len())
}

fn is_idle(effect: Effect) -> bool
    ensures { result ≡ is_idle effect }
{
    match effect {
        Effect::Nothing => true,
        Effect::Takes(count) => count == 0,
        _ => false,
    }
}

// Whether this is another place of code with so many instructions, if it is one.
fn is_other(count: usize, at: u16, to: Option<u16>) -> bool
    ensures { IsTrue result → IsOther count at to }
{
    match to {
        Some(place) => place != at && usize::from(place) < count,
        None => true,
    }
}

/// Whether the instruction at a place of code in which nothing waits leads only to other places, or to a next one that there is.
pub fn flows_freely(count: usize, at: u16, instr: Instr) -> bool
    ensures { IsTrue result → FlowsFreely count at instr }
{
    is_idle(effect_of(instr))
        && is_other(count, at, led_to(instr))
        && (!goes_next(instr) || usize::from(at) + 1 < count)
}
