// Calls with what stands before and behind them.
ghost use Rattle.std.specs.Prelude.{◌≡◌, ◌+◌, ◌≤◌, ◌*◌, [], ◌∷◌, ◌++◌, IsTrue, OnOk, take, drop, reverse};
ghost use Rattle.std.specs.List.{AllByRecursion};
ghost use Rattle.vg_lin.specs.Meaning.{operands};
ghost use Rattle.vg_templates.specs.Calls.{call_code, by_registers, sum_of};
ghost use Rattle.vg_templates.specs.Flow.{passes, passed_bytes, passed_widths, carries, goes_by_registers, passes_by, pushed_by_call};
ghost use Rattle.vg_templates.specs.Flow.{drops_at_once, is_none, way_of};
ghost use Rattle.vg_templates.specs.Whole.{call_front, call_bytes, call_back};
ghost use Rattle.vg_templates.specs.Returns.{takes_result};
ghost use Rattle.vg_alloc.specs.Locations.{layout};
ghost use Rattle.vg_put_flow.specs.Ways.{call_of};
ghost use Rattle.vg_select.specs.Within.{IsNarrow, IsPassedWithin, IsTargetWithin, IsCallWithin};

use avr_instr::Instr;
use std::alloc::Global;
use vg_alloc::Locations;
use vg_base::{NoMemory, Row};
use vg_lin::{Call, Callee, Passed, Registers, Target};
use vg_put_flow::{Way, put_aims, put_call, put_drops};
use vg_put_plain::put_pushes_value;
use vg_put_values::{put_brings, put_gives};

fn put_pass(
    alloc: Global,
    code: &mut Row<Instr>,
    locations: &Locations,
    passed: Passed,
) -> Result<(), NoMemory>
    requires { IsPassedWithin (layout locations.now) passed }
    ensures { OnOk result (code.new ≡ code.old ++ passes (layout locations.now) (passed ∷ [])) }
{
    put_pushes_value(alloc, code, locations, passed.width, passed.value)
}

// The last arguments are pushed behind the others.
fn put_passes(
    alloc: Global,
    code: &mut Row<Instr>,
    locations: &Locations,
    registers: Registers,
) -> Result<(), NoMemory>
    requires { AllByRecursion (IsPassedWithin (layout locations.now)) (operands registers) }
    ensures { OnOk result (code.new ≡ code.old ++ passes (layout locations.now) (operands registers)) }
{
    match registers {
        Registers::Empty => Ok(()),
        Registers::One(a) => put_pass(alloc, code, locations, a),
        Registers::Two(a, b) => {
            put_pass(alloc, code, locations, a)?;
            put_pass(alloc, code, locations, b)
        }
        Registers::Three(a, b, c) => {
            put_pass(alloc, code, locations, a)?;
            put_pass(alloc, code, locations, b)?;
            put_pass(alloc, code, locations, c)
        }
        Registers::Four(a, b, c, d) => {
            put_pass(alloc, code, locations, a)?;
            put_pass(alloc, code, locations, b)?;
            put_pass(alloc, code, locations, c)?;
            put_pass(alloc, code, locations, d)
        }
    }
}

fn passed_bytes(registers: Registers) -> u16
    requires { AllByRecursion IsNarrow (operands registers) }
    ensures bytes { result ≡ passed_bytes (operands registers) }
    ensures few { result ≤ 16 }
{
    match registers {
        Registers::Empty => 0,
        Registers::One(a) => u16::from(a.width),
        Registers::Two(a, b) => u16::from(a.width) + u16::from(b.width),
        Registers::Three(a, b, c) => {
            u16::from(a.width) + (u16::from(b.width) + u16::from(c.width))
        }
        Registers::Four(a, b, c, d) => {
            u16::from(a.width) + (u16::from(b.width) + (u16::from(c.width) + u16::from(d.width)))
        }
    }
}

// The bytes of so many of the values that wait, the newest of which is the last of these widths.
fn newest_bytes(waits: &[u8], count: u8) -> u16
    ensures bytes { result ≡ sum_of (take count (reverse waits.now)) }
    ensures few { result ≤ 255 * count }
{
    if count == 0 {
        return 0;
    }
    match waits {
        [] => 0,
        [rest @ .., newest] => u16::from(*newest) + newest_bytes(rest, count - 1),
    }
}

// One argument comes into registers, from this one on.
fn put_carry(
    code: &mut Row<Instr>,
    locations: &Locations,
    passed: Passed,
    first: u8,
) -> Result<(), NoMemory>
    requires passed { IsPassedWithin (layout locations.now) passed }
    requires from { 16 ≤ first }
    requires top { first + passed.width ≤ 32 }
    ensures { OnOk result (code.new ≡ code.old ++ carries (layout locations.now) first (passed ∷ [])) }
{
    put_brings(code, locations, passed.value, first, passed.width)
}

// The last arguments come into registers, one behind the other from r18 on.
fn put_carries(
    code: &mut Row<Instr>,
    locations: &Locations,
    registers: Registers,
) -> Result<(), NoMemory>
    requires passed { AllByRecursion (IsPassedWithin (layout locations.now)) (operands registers) }
    requires room { passed_bytes (operands registers) ≤ 8 }
    ensures { OnOk result (code.new ≡ code.old ++ carries (layout locations.now) 18 (operands registers)) }
{
    match registers {
        Registers::Empty => Ok(()),
        Registers::One(a) => put_carry(code, locations, a, 18),
        Registers::Two(a, b) => {
            put_carry(code, locations, a, 18)?;
            put_carry(code, locations, b, 18 + a.width)
        }
        Registers::Three(a, b, c) => {
            put_carry(code, locations, a, 18)?;
            put_carry(code, locations, b, 18 + a.width)?;
            put_carry(code, locations, c, 18 + a.width + b.width)
        }
        Registers::Four(a, b, c, d) => {
            put_carry(code, locations, a, 18)?;
            put_carry(code, locations, b, 18 + a.width)?;
            put_carry(code, locations, c, 18 + a.width + b.width)?;
            put_carry(code, locations, d, 18 + a.width + b.width + c.width)
        }
    }
}

// Whether the last arguments have room in registers.
#[tactic(auto, using(crate::proofs::Dropping::by_bytes))]
fn have_room(registers: Registers) -> bool
    requires { AllByRecursion IsNarrow (operands registers) }
    ensures way { result ≡ by_registers (passed_widths (operands registers)) }
    ensures room { IsTrue result → passed_bytes (operands registers) ≤ 8 }
{
    passed_bytes(registers) <= 8
}

// Whether a call goes by registers.
fn goes_by_registers(call: &Call) -> bool
    requires { AllByRecursion IsNarrow (operands call.now.registers) }
    ensures way { result ≡ goes_by_registers call.now }
    ensures room { IsTrue result → passed_bytes (operands call.now.registers) ≤ 8 }
{
    call.pushed == 0 && have_room(call.registers)
}

// The last arguments come into registers, or are pushed.
fn put_arguments(
    alloc: Global,
    code: &mut Row<Instr>,
    locations: &Locations,
    carried: bool,
    registers: Registers,
) -> Result<(), NoMemory>
    requires passed { AllByRecursion (IsPassedWithin (layout locations.now)) (operands registers) }
    requires room { IsTrue carried → passed_bytes (operands registers) ≤ 8 }
    ensures { OnOk result (code.new ≡ code.old ++ passes_by carried (layout locations.now) (operands registers)) }
{
    if carried {
        return put_carries(code, locations, registers);
    }
    put_passes(alloc, code, locations, registers)
}

// How many of their bytes are pushed.
fn pushed_by_call(carried: bool, registers: Registers) -> u16
    requires { AllByRecursion IsNarrow (operands registers) }
    ensures bytes { result ≡ pushed_by_call carried (operands registers) }
    ensures few { result ≤ 16 }
{
    if carried {
        return 0;
    }
    passed_bytes(registers)
}

// How many bytes of the arguments of a call are pushed.
#[tactic(auto, using(crate::proofs::Dropping::all_narrow))]
fn call_bytes(locations: &Locations, waits: &[u8], call: &Call) -> u16
    requires { IsCallWithin (layout locations.now) call.now }
    ensures { result ≡ call_bytes (reverse waits.now) call.now }
{
    let carried = goes_by_registers(call);
    newest_bytes(waits, call.pushed) + pushed_by_call(carried, call.registers)
}

// Whether nothing waits behind them.
#[tactic(auto, using(crate::proofs::Dropping::none_left, crate::proofs::Dropping::some_left))]
fn is_alone(waits: &[u8], count: u8) -> bool
    ensures { result ≡ is_none (drop count (reverse waits.now)) }
{
    if waits.len() <= usize::from(count) {
        return true;
    }
    false
}

fn way_for(callee: Callee, way: Way) -> Way
    ensures { call_of result ≡ way_of callee (call_of way) }
{
    match callee {
        Callee::Procedure(_) => way,
        Callee::Code(_) => Way::ByZ,
    }
}

// The result goes to its local.
fn put_takes_result(
    code: &mut Row<Instr>,
    locations: &Locations,
    to: Option<Target>,
) -> Result<(), NoMemory>
    requires { IsTargetWithin (layout locations.now) to }
    ensures { OnOk result (code.new ≡ code.old ++ takes_result (layout locations.now) to) }
{
    match to {
        Some(target) => put_gives(code, locations, target.local, 22, target.width),
        None => Ok(()),
    }
}

/// A call up to the instruction that calls.
#[tactic(auto, using(crate::proofs::Dropping::all_narrow))]
pub fn put_call_front(
    alloc: Global,
    code: &mut Row<Instr>,
    locations: &Locations,
    call: &Call,
) -> Result<(), NoMemory>
    requires { IsCallWithin (layout locations.now) call.now }
    ensures { OnOk result (code.new ≡ code.old ++ call_front (layout locations.now) call.now) }
{
    let carried = goes_by_registers(call);
    put_arguments(alloc, code, locations, carried, call.registers)?;
    put_aims(code, locations, call.callee)
}

// Behind it: the arguments are dropped, all at once where nothing else waits and that is shorter.
fn put_call_back(
    code: &mut Row<Instr>,
    locations: &Locations,
    waits: &[u8],
    call: &Call,
) -> Result<(), NoMemory>
    requires { IsCallWithin (layout locations.now) call.now }
    ensures { OnOk result (code.new ≡ code.old ++ call_back (layout locations.now) (reverse waits.now) call.now) }
{
    let bytes = call_bytes(locations, waits, call);
    let at_once = locations.pointed() && is_alone(waits, call.pushed) && 2 < bytes;
    put_drops(code, at_once, bytes)?;
    put_takes_result(code, locations, call.to)
}

/// A call, where values of these widths wait, the newest of them last.
pub fn put_whole_call(
    alloc: Global,
    code: &mut Row<Instr>,
    locations: &Locations,
    waits: &[u8],
    way: Way,
    call: &Call,
) -> Result<(), NoMemory>
    requires { IsCallWithin (layout locations.now) call.now }
    ensures { OnOk result (code.new ≡ code.old ++ (call_front (layout locations.now) call.now
        ++ call_code (way_of call.now.callee (call_of way)) ∷ call_back (layout locations.now) (reverse waits.now) call.now)) }
{
    put_call_front(alloc, code, locations, call)?;
    put_call(code, way_for(call.callee, way))?;
    put_call_back(code, locations, waits, call)
}
