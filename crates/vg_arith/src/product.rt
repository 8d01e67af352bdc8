// The routine of the product.
ghost use Rattle.std.specs.Prelude.{◌≡◌, ◌<◌, ◌++◌, [], ◌∷◌, IfOk, OnOk};
ghost use Rattle.vg_lin.specs.declared.instr.Operator.TheVariants.{Times};
ghost use Rattle.vg_lin.specs.Sound.{IsSound};
ghost use Rattle.vg_arith.specs.Routines.{IsRoutineOf, IsShort};
ghost use Rattle.vg_arith.specs.Product.{byte_of, product_of, added, raised, of_outer, of_inner, of_next, of_lowest, mul};

use std::alloc::Global;
use vg_base::{NoMemory, Row};
use vg_lin::{Computation, Instr, LinProc, Operand, Operator, Plain};

/// The routine of the product.
pub fn product_routine(alloc: Global) -> Result<LinProc, NoMemory>
    ensures { IfOk result (λ p. p ≡ mul) }
{
    let code = product_code(alloc)?;
    let widths = product_widths(alloc)?;
    Ok(LinProc::new(None, 2, 4, widths, code))
}

fn product_widths(alloc: Global) -> Result<Row<u8>, NoMemory>
    ensures { IfOk result (λ widths. widths ≡ mul.widths) }
{
    let mut widths = Row::new(alloc);
    widths.push(4)?;
    widths.push(4)?;
    widths.push(2)?;
    widths.push(2)?;
    widths.push(1)?;
    widths.push(1)?;
    Ok(widths)
}

fn product_code(alloc: Global) -> Result<Row<Instr>, NoMemory>
    ensures { IfOk result (λ code. code ≡ mul.code) }
{
    let mut code = Row::new(alloc);
    push_outer(&mut code)?;
    push_inner(&mut code)?;
    push_next(&mut code)?;
    push_lowest(&mut code)?;
    code.push(Instr::Return(4, Operand::Local(1)))?;
    Ok(code)
}

// The column of the highest byte: the products with a lowest byte.
fn push_outer(code: &mut Row<Instr>) -> Result<(), NoMemory>
    ensures { OnOk result (code.new ≡ code.old ++ of_outer) }
{
    code.push(byte(4, 0, 3))?;
    code.push(product(3, 4, 1))?;
    code.push(byte(5, 1, 3))?;
    code.push(product(2, 0, 5))?;
    code.push(add(2, 3))?;
    Ok(())
}

// The other products of it.
fn push_inner(code: &mut Row<Instr>) -> Result<(), NoMemory>
    ensures { OnOk result (code.new ≡ code.old ++ of_inner) }
{
    code.push(byte(4, 0, 1))?;
    code.push(byte(5, 1, 2))?;
    code.push(product(2, 4, 5))?;
    code.push(add(2, 3))?;
    code.push(byte(4, 0, 2))?;
    code.push(byte(5, 1, 1))?;
    code.push(product(2, 4, 5))?;
    code.push(add(2, 3))?;
    Ok(())
}

// The column below it.
fn push_next(code: &mut Row<Instr>) -> Result<(), NoMemory>
    ensures { OnOk result (code.new ≡ code.old ++ of_next) }
{
    code.push(raise(2, 3, 3))?;
    code.push(product(2, 4, 1))?;
    code.push(add(2, 3))?;
    code.push(byte(4, 1, 2))?;
    code.push(product(2, 0, 4))?;
    code.push(add(2, 3))?;
    code.push(byte(4, 0, 1))?;
    code.push(product(2, 4, 5))?;
    code.push(add(2, 3))?;
    Ok(())
}

// The two lowest columns.
fn push_lowest(code: &mut Row<Instr>) -> Result<(), NoMemory>
    ensures { OnOk result (code.new ≡ code.old ++ of_lowest) }
{
    code.push(product(2, 0, 5))?;
    code.push(Instr::Plain(Plain::Copy(5, Operand::Local(1))))?;
    code.push(raise(4, 1, 3))?;
    code.push(add(4, 1))?;
    code.push(product(2, 4, 5))?;
    code.push(add(4, 1))?;
    code.push(raise(4, 1, 1))?;
    code.push(product(2, 0, 5))?;
    code.push(add(4, 1))?;
    Ok(())
}

// The byte of a local at a place goes to another one.
fn byte(to: u8, from: u8, place: u8) -> Instr
    requires { place < 4 }
    ensures { result ≡ byte_of to from place }
{
    Instr::Plain(Plain::Compute(Computation {
        operator: Operator::ShiftRight,
        width: place + 1,
        to,
        left: Operand::Local(from),
        right: Operand::Known(8 * u32::from(place)),
    }))
}

// The product of the lowest bytes of two locals.
fn product(to: u8, left: u8, right: u8) -> Instr
    ensures { result ≡ product_of to left right }
{
    Instr::Plain(Plain::Product(to, Operand::Local(left), Operand::Local(right)))
}

// It is added to a sum of so many bytes.
fn add(width: u8, to: u8) -> Instr
    ensures { result ≡ added width to }
{
    Instr::Plain(Plain::Compute(Computation {
        operator: Operator::Plus,
        width,
        to,
        left: Operand::Local(to),
        right: Operand::Local(2),
    }))
}

// A sum stands one byte higher for the next column.
fn raise(width: u8, to: u8, from: u8) -> Instr
    ensures { result ≡ raised width to from }
{
    Instr::Plain(Plain::Compute(Computation {
        operator: Operator::ShiftLeft,
        width,
        to,
        left: Operand::Local(from),
        right: Operand::Known(8),
    }))
}

/// The routine of the product gives what the operator computes, of all numbers. It is small, and has no jump back.
pub fn product_is_right()
    ensures product { IsRoutineOf Times mul }
    ensures short { IsShort mul }
    ensures sound { IsSound mul }
{}
