// The code in place of one instruction.
ghost use Rattle.std.specs.Prelude.{◌≡◌, ◌<◌, ◌++◌, [], ◌∷◌, get_or, OnOk};
ghost use Rattle.vg_lin.specs.declared.instr.Operand.TheVariants.{Known as IsKnown};
ghost use Rattle.vg_expand.specs.Code.{in_four as argument, dividing, cut_to, calling, mask as mask_of, shifting, shifting_left as to_left, shifting_right as to_right, computing, plain_at, expanded_at};

use crate::places::place_at;
use crate::products::push_product;
use vg_base::{NoMemory, Row};
use vg_lin::{
    Call, Callee, Computation, Instr, Operand, Operator, Passed, Plain, Registers, Target,
};

/// Puts what stands for an instruction behind the code, where the first routine has this number and locals have these widths.
pub fn push_instr(
    code: &mut Row<Instr>,
    instr: Instr,
    places: &[u16],
    first: u16,
    widths: &[u8],
) -> Result<(), NoMemory>
    requires { first < 65533 }
    ensures { OnOk result (code.new ≡ code.old ++ expanded_at (record { first = first; widths = widths.now }) (λ to. get_or places.now to 0) instr) }
{
    match instr {
        Instr::Plain(plain) => push_plain(code, plain, first, widths),
        Instr::When(test, to) => code.push(Instr::When(test, place_at(places, to))),
        Instr::Unless(test, to) => code.push(Instr::Unless(test, place_at(places, to))),
        Instr::Jump(to) => code.push(Instr::Jump(place_at(places, to))),
        Instr::Call(call) => code.push(Instr::Call(call)),
        Instr::Return(width, value) => code.push(Instr::Return(width, value)),
        Instr::Idle => code.push(Instr::Idle),
    }
}

fn push_plain(
    code: &mut Row<Instr>,
    plain: Plain,
    first: u16,
    widths: &[u8],
) -> Result<(), NoMemory>
    requires { first < 65533 }
    ensures { OnOk result (code.new ≡ code.old ++ plain_at (record { first = first; widths = widths.now }) plain) }
{
    match plain {
        Plain::Compute(c) => push_computation(code, c, first, widths),
        _ => code.push(Instr::Plain(plain)),
    }
}

fn push_computation(
    code: &mut Row<Instr>,
    c: Computation,
    first: u16,
    widths: &[u8],
) -> Result<(), NoMemory>
    requires { first < 65533 }
    ensures { OnOk result (code.new ≡ code.old ++ computing (record { first = first; widths = widths.now }) c c.operator) }
{
    match c.operator {
        Operator::Times => push_product(code, c, first, widths),
        Operator::Divide => push_division(code, first + 1, c, 0),
        Operator::Remainder => push_division(code, first + 1, c, 1),
        Operator::ShiftLeft => push_shift(code, first + 2, shifting_left(c), c),
        Operator::ShiftRight => push_shift(code, first + 3, shifting_right(c), c),
        _ => code.push(Instr::Plain(Plain::Compute(c))),
    }
}

// Of the results of a division the quotient is wanted by 0, the remainder by 1.
fn push_division(
    code: &mut Row<Instr>,
    routine: u16,
    c: Computation,
    wanted: u32,
) -> Result<(), NoMemory>
    ensures { OnOk result (code.new ≡ code.old ++ calling routine (dividing c (IsKnown wanted)) c) }
{
    push_call(
        code,
        routine,
        Registers::Three(
            in_four(c.left),
            in_four(c.right),
            Passed {
                width: 1,
                value: Operand::Known(wanted),
            },
        ),
        c,
    )
}

fn push_shift(
    code: &mut Row<Instr>,
    routine: u16,
    registers: Registers,
    c: Computation,
) -> Result<(), NoMemory>
    ensures { OnOk result (code.new ≡ code.old ++ shifting routine registers c c.right) }
{
    match c.right {
        Operand::Known(_) => code.push(Instr::Plain(Plain::Compute(c))),
        Operand::Local(_) => push_call(code, routine, registers, c),
    }
}

// The arguments of a shift to the left.
fn shifting_left(c: Computation) -> Registers
    ensures { result ≡ to_left c }
{
    Registers::Two(in_four(c.left), in_four(c.right))
}

// The arguments of a shift to the right, which is told the bits of the value.
fn shifting_right(c: Computation) -> Registers
    ensures { result ≡ to_right c }
{
    Registers::Three(in_four(c.left), in_four(c.right), in_four(mask(c.width)))
}

/// An operand as an argument of a routine.
pub fn in_four(value: Operand) -> Passed
    ensures { result ≡ argument value }
{
    Passed { width: 4, value }
}

// The bits of a width.
fn mask(width: u8) -> Operand
    ensures { result ≡ mask_of width }
{
    let bits = if width == 0 {
        0
    } else if width == 1 {
        0xFF
    } else if width == 2 {
        0xFFFF
    } else if width == 3 {
        0xFF_FFFF
    } else {
        0xFFFF_FFFF
    };
    Operand::Known(bits)
}

/// Puts the call of a routine behind the code, whose result is cut to the width of the computation.
pub fn push_call(
    code: &mut Row<Instr>,
    routine: u16,
    registers: Registers,
    c: Computation,
) -> Result<(), NoMemory>
    ensures { OnOk result (code.new ≡ code.old ++ calling routine registers c) }
{
    code.push(Instr::Call(Call {
        callee: Callee::Procedure(routine),
        pushed: 0,
        registers,
        to: Some(Target {
            width: 4,
            local: c.to,
        }),
    }))?;
    push_cut(code, c.width, c.to)
}

/// Cuts what a local has to a width.
pub fn push_cut(code: &mut Row<Instr>, width: u8, to: u8) -> Result<(), NoMemory>
    ensures { OnOk result (code.new ≡ code.old ++ cut_to width to) }
{
    if width < 4 {
        code.push(Instr::Plain(Plain::Compute(Computation {
            operator: Operator::Plus,
            width,
            to,
            left: Operand::Local(to),
            right: Operand::Known(0),
        })))?;
    }
    Ok(())
}
