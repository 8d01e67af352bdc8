// Tests with their branches, and jumps.
ghost use Rattle.std.specs.Prelude.{◌≡◌, ◌≤◌, ◌<◌, ◌++◌, OnOk, length, false};
ghost use Rattle.avr_isa.specs.Standing.{widths};
ghost use Rattle.vg_templates.specs.Branches.{joins, joins_behind, are_free, is_zero, is_same, is_joined, compares_found, tests, told_by, near_branch};
ghost use Rattle.vg_templates.specs.Flow.{jump_code, branch_code};
ghost use Rattle.vg_alloc.specs.Locations.{layout};
ghost use Rattle.vg_put_values.specs.Within.{IsThere};
ghost use Rattle.vg_put_flow.specs.Ways.{hop_of, turn_of};

use crate::ways::{Hop, Turn};
use avr_instr::{FlagBit, Instr, NearOffset, Register};
use std::alloc::Global;
use vg_alloc::Locations;
use vg_base::{NoMemory, Row};
use vg_lin::{Comparison, Operand, Test};
use vg_put_chains::put_compares;
use vg_put_values::{found_in, put_finds};

// Bytes are joined with the one in r22.
fn put_joins(code: &mut Row<Instr>, registers: &[Register]) -> Result<(), NoMemory>
    ensures { OnOk result (code.new ≡ code.old ++ joins registers.now) }
{
    match registers {
        [] => Ok(()),
        [first, rest @ ..] => {
            code.push(Instr::Or(Register::new(22), *first))?;
            put_joins(code, rest)
        }
    }
}

// All of several bytes are joined with the first one, which came into r22.
fn put_joins_behind(code: &mut Row<Instr>, registers: &[Register]) -> Result<(), NoMemory>
    ensures { OnOk result (code.new ≡ code.old ++ joins_behind registers.now) }
{
    match registers {
        [] => Ok(()),
        [_, rest @ ..] => put_joins(code, rest),
    }
}

// Whether there are several bytes, of which the first one came into r22.
fn are_free(registers: &[Register]) -> bool
    ensures { result ≡ are_free registers.now }
{
    match registers {
        [] => false,
        [_] => false,
        [first, _, ..] => first.number() == 22,
    }
}

// Whether an operand is the number zero.
fn is_zero(operand: Operand) -> bool
    ensures { result ≡ is_zero operand }
{
    match operand {
        Operand::Local(_) => false,
        Operand::Known(x) => x == 0,
    }
}

fn is_same(comparison: Comparison) -> bool
    ensures { result ≡ is_same comparison }
{
    match comparison {
        Comparison::Same => true,
        Comparison::Below | Comparison::Less => false,
    }
}

// Whether a test asks for zero, and its left number can be joined.
fn is_joined(test: Test, left: &[Register]) -> bool
    ensures { result ≡ is_joined test left.now }
{
    is_same(test.comparison) && (is_zero(test.right) && are_free(left))
}

// The right operand is found, and compared with the left one.
fn put_compares_found(
    alloc: Global,
    code: &mut Row<Instr>,
    locations: &Locations,
    test: Test,
    left: &[Register],
) -> Result<(), NoMemory>
    requires narrow { test.width ≤ 4 }
    requires right { IsThere (layout locations.now) test.right }
    requires left { length left.now ≡ test.width }
    ensures { OnOk result (code.new ≡ code.old ++ compares_found false (layout locations.now) test left.now) }
{
    put_finds(code, locations, test.right, 18, test.width)?;
    let right = found_in(alloc, locations, test.right, 18, test.width)?;
    put_compares(code, left, right.as_slice())
}

/// Both operands of a test are found, and compared. A number of several bytes that is not in the registers of its local is compared with zero by what
/// all its bytes are together.
pub fn put_tests(
    alloc: Global,
    code: &mut Row<Instr>,
    locations: &Locations,
    test: Test,
) -> Result<(), NoMemory>
    requires narrow { test.width ≤ 4 }
    requires left { IsThere (layout locations.now) test.left }
    requires right { IsThere (layout locations.now) test.right }
    ensures { OnOk result (code.new ≡ code.old ++ tests (layout locations.now) test) }
{
    put_finds(code, locations, test.left, 22, test.width)?;
    let left = found_in(alloc, locations, test.left, 22, test.width)?;
    if is_joined(test, left.as_slice()) {
        return put_joins_behind(code, left.as_slice());
    }
    put_compares_found(alloc, code, locations, test, left.as_slice())
}

/// The flag by which a comparison tells: C, S or Z.
pub fn told_by(comparison: Comparison) -> FlagBit
    ensures { result ≡ told_by comparison }
{
    match comparison {
        Comparison::Below => FlagBit::new(0),
        Comparison::Less => FlagBit::new(4),
        Comparison::Same => FlagBit::new(1),
    }
}

/// A jump.
pub fn put_jump(code: &mut Row<Instr>, hop: Hop) -> Result<(), NoMemory>
    ensures { OnOk result (code.new ≡ code.old ++ jump_code (hop_of hop)) }
{
    match hop {
        Hop::Near(distance) => code.push(Instr::Rjmp(distance)),
        Hop::Far(to) => code.push(Instr::Jmp(to)),
    }
}

// How many words a jump takes.
fn words_of(hop: &Hop) -> u8
    ensures words { result ≡ widths (jump_code (hop_of hop.now)) }
    ensures few { result < 128 }
{
    match hop {
        Hop::Near(_) => 1,
        Hop::Far(_) => 2,
    }
}

fn put_near_branch(
    code: &mut Row<Instr>,
    bit: FlagBit,
    wanted: bool,
    distance: NearOffset,
) -> Result<(), NoMemory>
    ensures { OnOk result (code.new ≡ code.old ++ near_branch bit wanted distance) }
{
    if wanted {
        code.push(Instr::Brbs(bit, distance))
    } else {
        code.push(Instr::Brbc(bit, distance))
    }
}

/// A branch that is taken where the flag has the value that is wanted.
pub fn put_branch(
    code: &mut Row<Instr>,
    bit: FlagBit,
    wanted: bool,
    turn: Turn,
) -> Result<(), NoMemory>
    ensures { OnOk result (code.new ≡ code.old ++ branch_code bit wanted (turn_of turn)) }
{
    match turn {
        Turn::Direct(distance) => put_near_branch(code, bit, wanted, distance),
        Turn::Past(hop) => {
            put_near_branch(code, bit, !wanted, NearOffset::new(words_of(&hop)))?;
            put_jump(code, hop)
        }
    }
}
