// Procedures with calls of finders in place of look-ups, and the finders.
ghost use Rattle.std.specs.Prelude.{◌≡◌, ◌++◌, IfOk, map};
ghost use Rattle.vg_finding.specs.Finders.{code_found, finder, finder_in, instr_found, looked_up, with_finders};

use std::alloc::Global;
use vg_base::{NoMemory, Row};
use vg_lin::{Call, Callee, Instr, LinProc, Operand, Passed, Plain, Registers, Target};

/// The procedures with calls of the finders that have these numbers in place of look-ups, and behind them the finders of these dispatches.
pub fn all_found(
    alloc: Global,
    numbers: &[Option<u16>],
    finders: &[u32],
    procedures: &[LinProc],
) -> Result<Row<LinProc>, NoMemory>
    ensures { IfOk result (λ new. new ≡ map (with_finders numbers.now) procedures.now ++ map finder finders.now) }
{
    let mut row = all_with_finders(alloc, numbers, procedures)?;
    for dispatch in finders {
        let new = finder(alloc, *dispatch)?;
        row.push(new)?;
    }
    Ok(row)
}

// The procedures with calls of finders in place of look-ups.
fn all_with_finders(
    alloc: Global,
    numbers: &[Option<u16>],
    procedures: &[LinProc],
) -> Result<Row<LinProc>, NoMemory>
    ensures { IfOk result (λ new. new ≡ map (with_finders numbers.now) procedures.now) }
{
    let mut row = Row::new(alloc);
    for procedure in procedures {
        let new = with_finders(alloc, numbers, procedure)?;
        row.push(new)?;
    }
    Ok(row)
}

fn with_finders(alloc: Global, numbers: &[Option<u16>], old: &LinProc) -> Result<LinProc, NoMemory>
    ensures { IfOk result (λ new. new ≡ with_finders numbers.now old.now) }
{
    old.keeps();
    let widths = Row::from_slice(alloc, old.widths())?;
    let code = code_found(alloc, numbers, old.code())?;
    Ok(LinProc::new(old.method(), old.params(), old.result_width(), widths, code))
}

// The procedure that looks up what a dispatch has for the number of an object.
fn finder(alloc: Global, dispatch: u32) -> Result<LinProc, NoMemory>
    ensures { IfOk result (λ new. new ≡ finder dispatch) }
{
    let mut widths = Row::new(alloc);
    widths.push(2)?;
    widths.push(2)?;
    let mut code = Row::new(alloc);
    code.push(Instr::Plain(Plain::Find(dispatch, 1, Operand::Local(0))))?;
    code.push(Instr::Return(2, Operand::Local(1)))?;
    Ok(LinProc::new(None, 1, 2, widths, code))
}

fn code_found(
    alloc: Global,
    numbers: &[Option<u16>],
    code: &[Instr],
) -> Result<Row<Instr>, NoMemory>
    ensures { IfOk result (λ new. new ≡ code_found numbers.now code.now) }
{
    let mut row = Vec::with_capacity(alloc, code.len())?;
    for instr in code {
        row.push(instr_found(numbers, *instr))?;
    }
    Ok(Row::from_vec(row))
}

// What stands for an instruction.
fn instr_found(numbers: &[Option<u16>], instr: Instr) -> Instr
    ensures { result ≡ instr_found numbers.now instr }
{
    match instr {
        Instr::Plain(Plain::Find(dispatch, to, number)) => looked_up(
            finder_in(numbers, dispatch),
            dispatch,
            to,
            number,
        ),
        _ => instr,
    }
}

// The procedure that is the finder of a dispatch, where it has one.
fn finder_in(numbers: &[Option<u16>], dispatch: u32) -> Option<u16>
    ensures { result ≡ finder_in numbers.now dispatch }
{
    match numbers.get(dispatch as usize) {
        Some(number) => *number,
        None => None,
    }
}

// What stands for a look-up that puts what a dispatch has for a number into a local: the call of the finder, where there is one.
fn looked_up(finder: Option<u16>, dispatch: u32, to: u8, number: Operand) -> Instr
    ensures { result ≡ looked_up finder dispatch to number }
{
    match finder {
        Some(procedure) => Instr::Call(Call {
            callee: Callee::Procedure(procedure),
            pushed: 0,
            registers: Registers::One(Passed {
                width: 2,
                value: number,
            }),
            to: Some(Target {
                width: 2,
                local: to,
            }),
        }),
        None => Instr::Plain(Plain::Find(dispatch, to, number)),
    }
}
