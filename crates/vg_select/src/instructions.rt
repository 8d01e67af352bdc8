// Instructions.
ghost use Rattle.std.specs.Prelude.{◌≡◌, ◌++◌, OnOk, true, false, reverse};
ghost use Rattle.vg_templates.specs.Branches.{tests, told_by};
ghost use Rattle.vg_templates.specs.Flow.{branch_code};
ghost use Rattle.vg_alloc.specs.Locations.{layout};
ghost use Rattle.vg_put_flow.specs.Ways.{turn_of};
ghost use Rattle.vg_put_operations.specs.Coded.{code_from};
ghost use Rattle.vg_select.specs.Leadings.{leading};
ghost use Rattle.vg_select.specs.Selected.{with_codes, selected};
ghost use Rattle.vg_select.specs.Within.{IsTestWithin, IsWithin};

use crate::calling::put_whole_call;
use crate::leading::Leading;
use crate::plains::put_plain;
use avr_instr::Instr as Avr;
use std::alloc::Global;
use vg_alloc::Locations;
use vg_base::{NoMemory, Row};
use vg_codes::Case;
use vg_lin::{Instr, Test};
use vg_put_flow::{Turn, put_branch, put_jump, put_returns_value, put_tests, told_by};

// A branch that is taken where a test holds, or where it does not.
fn put_test(
    alloc: Global,
    code: &mut Row<Avr>,
    locations: &Locations,
    test: Test,
    wanted: bool,
    turn: Turn,
) -> Result<(), NoMemory>
    requires { IsTestWithin (layout locations.now) test }
    ensures { OnOk result (code.new ≡ code.old ++ (tests (layout locations.now) test ++ branch_code (told_by test.comparison) wanted (turn_of turn))) }
{
    put_tests(alloc, code, locations, test)?;
    put_branch(code, told_by(test.comparison), wanted, turn)
}

/// The code of an instruction goes behind the code so far.
///
/// `codes` are the code numbers of all procedures: word addresses of their entries. `waits` are the widths in bytes of the values that wait before
/// the instruction, the newest of them last.
pub fn put_selected(
    alloc: Global,
    code: &mut Row<Avr>,
    locations: &Locations,
    codes: &[u16],
    dispatches: &[Row<Case>],
    waits: &[u8],
    to: &Leading,
    instr: &Instr,
) -> Result<(), NoMemory>
    requires { IsWithin (layout locations.now) instr.now }
    ensures { OnOk result (code.new ≡ code.old
        ++ selected (layout locations.now) (with_codes (code_from codes.now) dispatches.now) (reverse waits.now) (leading to.now) instr.now) }
{
    match instr {
        Instr::Plain(plain) => put_plain(alloc, code, locations, codes, dispatches, *plain),
        Instr::When(test, _) => put_test(alloc, code, locations, *test, true, to.branch),
        Instr::Unless(test, _) => put_test(alloc, code, locations, *test, false, to.branch),
        Instr::Jump(_) => put_jump(code, to.jump),
        Instr::Call(call) => put_whole_call(alloc, code, locations, waits, to.call, call),
        Instr::Return(width, operand) => put_returns_value(code, locations, *operand, *width),
        Instr::Idle => code.push(Avr::Call(to.idle)),
    }
}
