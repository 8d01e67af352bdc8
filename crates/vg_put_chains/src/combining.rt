// Logic and comparisons.
ghost use Rattle.std.specs.Prelude.{◌≡◌, ◌≤◌, ◌+◌, ◌++◌, OnOk, length};
ghost use Rattle.vg_templates.specs.Chains.{ands, ors, eors, compares, compares_on};

use avr_instr::{Instr, Register};
use vg_base::{NoMemory, Row};

/// Joins the number in registers from d on and the one in a list of registers by and.
pub fn put_ands(code: &mut Row<Instr>, d: u8, right: &[Register]) -> Result<(), NoMemory>
    requires { d + length right.now ≤ 32 }
    ensures { OnOk result (code.new ≡ code.old ++ ands d right.now) }
{
    match right {
        [] => Ok(()),
        [r, rest @ ..] => {
            code.push(Instr::And(Register::new(d), *r))?;
            put_ands(code, d + 1, rest)
        }
    }
}

/// Joins them by or.
pub fn put_ors(code: &mut Row<Instr>, d: u8, right: &[Register]) -> Result<(), NoMemory>
    requires { d + length right.now ≤ 32 }
    ensures { OnOk result (code.new ≡ code.old ++ ors d right.now) }
{
    match right {
        [] => Ok(()),
        [r, rest @ ..] => {
            code.push(Instr::Or(Register::new(d), *r))?;
            put_ors(code, d + 1, rest)
        }
    }
}

/// Joins them by exclusive or.
pub fn put_eors(code: &mut Row<Instr>, d: u8, right: &[Register]) -> Result<(), NoMemory>
    requires { d + length right.now ≤ 32 }
    ensures { OnOk result (code.new ≡ code.old ++ eors d right.now) }
{
    match right {
        [] => Ok(()),
        [r, rest @ ..] => {
            code.push(Instr::Eor(Register::new(d), *r))?;
            put_eors(code, d + 1, rest)
        }
    }
}

/// Compares the numbers in two lists of registers.
pub fn put_compares(
    code: &mut Row<Instr>,
    left: &[Register],
    right: &[Register],
) -> Result<(), NoMemory>
    ensures { OnOk result (code.new ≡ code.old ++ compares left.now right.now) }
{
    match left {
        [] => Ok(()),
        [a, more @ ..] => match right {
            [] => Ok(()),
            [b, others @ ..] => {
                code.push(Instr::Cp(*a, *b))?;
                put_compares_on(code, more, others)
            }
        },
    }
}

fn put_compares_on(
    code: &mut Row<Instr>,
    left: &[Register],
    right: &[Register],
) -> Result<(), NoMemory>
    ensures { OnOk result (code.new ≡ code.old ++ compares_on left.now right.now) }
{
    match left {
        [] => Ok(()),
        [a, more @ ..] => match right {
            [] => Ok(()),
            [b, others @ ..] => {
                code.push(Instr::Cpc(*a, *b))?;
                put_compares_on(code, more, others)
            }
        },
    }
}
