// Steps of division in registers of remainder and dividend.
ghost use Rattle.std.specs.Prelude.{◌≡◌, ◌≤◌, ◌<◌, ◌+◌, ◌++◌, List, [], ◌∷◌, OnOk, length};
ghost use Rattle.avr_instr.specs.declared.instr.Instr.TheVariants.{Ldi};
ghost use Rattle.vg_templates.specs.Divisions.{shifts_both, takes_once, turns_in_place, divides_in_place, is_other, divides_at, divides_steps};
ghost use Rattle.vg_templates.specs.Chains.{compares};
ghost use Rattle.vg_templates.specs.Products.{four_from};
ghost use Rattle.vg_alloc.specs.Locations.{layout};
ghost use Rattle.vg_put_values.specs.Within.{IsThere};

use crate::products::{four_from, put_divides_through};
use crate::shifts::{put_doubles, put_doubles_on};
use avr_instr::{FlagBit, Instr, NearOffset, Register, UpperRegister};
use vg_alloc::Locations;
use vg_base::{NoMemory, Row};
use vg_lin::Operand;
use vg_put_chains::{put_compares, put_subtracts};
use vg_put_values::{home_of, put_brings};

fn put_compares_four(code: &mut Row<Instr>, remainder: u8) -> Result<(), NoMemory>
    requires { remainder + 4 ≤ 32 }
    ensures { OnOk result (code.new ≡ code.old ++ compares (four_from remainder) (four_from 18)) }
{
    put_compares(code, &four_from(remainder), &four_from(18))
}

fn put_shifts_both(code: &mut Row<Instr>, remainder: u8, dividend: u8) -> Result<(), NoMemory>
    requires remainder { remainder + 4 ≤ 32 }
    requires dividend { dividend + 4 ≤ 32 }
    ensures { OnOk result (code.new ≡ code.old ++ shifts_both remainder dividend) }
{
    put_doubles(code, dividend, 4)?;
    put_doubles_on(code, remainder, 4)?;
    put_compares_four(code, remainder)
}

// The lowest bit of the dividend is 0 here, so INC sets it and changes no other one (AVR Instruction Set Manual, INC).
fn put_takes_once(code: &mut Row<Instr>, remainder: u8, dividend: u8) -> Result<(), NoMemory>
    requires remainder { remainder + 4 ≤ 32 }
    requires dividend { dividend + 4 ≤ 32 }
    ensures { OnOk result (code.new ≡ code.old ++ takes_once remainder dividend) }
{
    put_subtracts(code, remainder, &four_from(18))?;
    code.push(Instr::Inc(Register::new(dividend)))
}

// BRCS leads over the five instructions that take the divisor, and BRNE by the signed distance of seven bits that is -20 back over the whole turn (AVR
// Instruction Set Manual, BRCS and BRNE).
fn put_turns_in_place(code: &mut Row<Instr>, remainder: u8, dividend: u8) -> Result<(), NoMemory>
    requires remainder { remainder + 4 ≤ 32 }
    requires dividend { dividend + 4 ≤ 32 }
    ensures { OnOk result (code.new ≡ code.old ++ turns_in_place remainder dividend) }
{
    put_shifts_both(code, remainder, dividend)?;
    code.push(Instr::Brbs(FlagBit::new(0), NearOffset::new(5)))?;
    put_takes_once(code, remainder, dividend)?;
    code.push(Instr::Dec(Register::new(26)))?;
    code.push(Instr::Brbc(FlagBit::new(1), NearOffset::new(108)))
}

// r26 counts the turns.
fn put_count(code: &mut Row<Instr>) -> Result<(), NoMemory>
    ensures { OnOk result (code.new ≡ code.old ++ Ldi 26 32 ∷ []) }
{
    code.push(Instr::Ldi(UpperRegister::new(26), 32))
}

fn put_divides_in_place(
    code: &mut Row<Instr>,
    locations: &Locations,
    remainder: u8,
    dividend: u8,
    divisor: Operand,
) -> Result<(), NoMemory>
    requires remainder { remainder + 4 ≤ 32 }
    requires dividend { dividend + 4 ≤ 32 }
    requires divisor { IsThere (layout locations.now) divisor }
    ensures { OnOk result (code.new ≡ code.old ++ divides_in_place (layout locations.now) remainder dividend divisor) }
{
    put_brings(code, locations, divisor, 18, 4)?;
    put_count(code)?;
    put_turns_in_place(code, remainder, dividend)
}

// Whether an operand is not this local.
fn is_other(operand: Operand, local: u8) -> bool
    ensures { result ≡ is_other operand local }
{
    match operand {
        Operand::Local(k) => k != local,
        Operand::Known(_) => true,
    }
}

/// The steps of a division, one turn of a loop each: in the registers of remainder and dividend, where both have four and the divisor is neither.
pub fn put_divides_steps(
    code: &mut Row<Instr>,
    locations: &Locations,
    remainder: u8,
    dividend: u8,
    divisor: Operand,
) -> Result<(), NoMemory>
    requires remainder { remainder < length locations.now.widths }
    requires dividend { dividend < length locations.now.widths }
    requires divisor { IsThere (layout locations.now) divisor }
    ensures { OnOk result (code.new ≡ code.old ++ divides_steps (layout locations.now) remainder dividend divisor) }
{
    let remainder_home = home_of(locations, remainder, 4);
    let dividend_home = home_of(locations, dividend, 4);
    match (remainder_home, dividend_home) {
        (Some(r), Some(d)) if is_other(divisor, remainder) && is_other(divisor, dividend) => {
            put_divides_in_place(code, locations, r, d, divisor)
        }
        _ => put_divides_through(code, locations, remainder, dividend, divisor),
    }
}
