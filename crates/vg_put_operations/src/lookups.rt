// Reads of tables in flash, and dispatches.
ghost use Rattle.std.specs.Prelude.{◌≡◌, ◌≤◌, ◌<◌, ◌+◌, ◌++◌, OnOk, length};
ghost use Rattle.vg_templates.specs.Choices.{usual, unusual, is_alone};
ghost use Rattle.vg_templates.specs.Lookups.{points_z, loads_z, loads_table, tries_case, tries_cases, finds_procedure};
ghost use Rattle.vg_alloc.specs.Locations.{layout};
ghost use Rattle.vg_put_values.specs.Within.{IsThere};
ghost use Rattle.vg_put_operations.specs.Coded.{code_from};

use crate::choices::{is_alone, usual};
use avr_instr::{FlagBit, Instr, NearOffset, RegisterBesideZ, RegisterPair};
use vg_alloc::Locations;
use vg_base::{NoMemory, Row};
use vg_codes::Case;
use vg_lin::{Address, Operand};
use vg_put_chains::{put_known, put_takes_known};
use vg_put_plain::put_plus_base;
use vg_put_values::{home_of, made_in, put_brings, put_brings_z, put_gives, put_settles};

// Z becomes the address.
fn put_points_z(
    code: &mut Row<Instr>,
    locations: &Locations,
    address: Address,
) -> Result<(), NoMemory>
    requires index { IsThere (layout locations.now) address.index }
    ensures { OnOk result (code.new ≡ code.old ++ points_z (layout locations.now) address.base address.index) }
{
    match address.index {
        Operand::Known(x) => put_known(code, 30, 2, u64::from(address.base) + u64::from(x)),
        Operand::Local(_) => {
            put_brings_z(code, locations, address.index)?;
            put_plus_base(code, 30, address.base)
        }
    }
}

fn put_loads_z(code: &mut Row<Instr>, d: u8, count: u8) -> Result<(), NoMemory>
    requires { d + count ≤ 30 }
    ensures { OnOk result (code.new ≡ code.old ++ loads_z d count) }
{
    if count == 0 {
        return Ok(());
    }
    code.push(Instr::LpmZPlus(RegisterBesideZ::new(d)))?;
    put_loads_z(code, d + 1, count - 1)
}

/// So many bytes of a table in flash go to a local.
pub fn put_loads_table(
    code: &mut Row<Instr>,
    locations: &Locations,
    width: u8,
    to: u8,
    address: Address,
) -> Result<(), NoMemory>
    requires narrow { width ≤ 4 }
    requires there { to < length locations.now.widths }
    requires index { IsThere (layout locations.now) address.index }
    ensures { OnOk result (code.new ≡ code.old ++ loads_table (layout locations.now) width to address.base address.index) }
{
    put_points_z(code, locations, address)?;
    let home = home_of(locations, to, width);
    put_loads_z(code, made_in(home), width)?;
    put_settles(code, locations, to, home, width)
}

/// The code number of a procedure, in a list of those of all procedures; 0 for a number that no procedure has.
pub fn code_of(codes: &[u16], procedure: u16) -> u16
    ensures { result ≡ code_from codes.now procedure }
{
    let place = usize::from(procedure);
    if place < codes.len() { codes[place] } else { 0 }
}

fn put_tries_case(code: &mut Row<Instr>, codes: &[u16], case: Case) -> Result<(), NoMemory>
    ensures { OnOk result (code.new ≡ code.old ++ tries_case (code_from codes.now) case) }
{
    code.push(Instr::Movw(RegisterPair::new(26), RegisterPair::new(24)))?;
    put_takes_known(code, 26, 2, u64::from(case.first))?;
    put_takes_known(code, 26, 2, u64::from(case.count))?;
    code.push(Instr::Brbc(FlagBit::new(0), NearOffset::new(2)))?;
    put_known(code, 22, 2, u64::from(code_of(codes, case.procedure)))
}

// The procedure that stands for all others comes in first, and the cases that are tried overwrite it.
fn put_tries_unusual(
    code: &mut Row<Instr>,
    codes: &[u16],
    procedure: u16,
    cases: &[Case],
) -> Result<(), NoMemory>
    ensures { OnOk result (code.new ≡ code.old ++ tries_cases (code_from codes.now) procedure (unusual procedure cases.now)) }
{
    match cases {
        [] => put_known(code, 22, 2, u64::from(code_of(codes, procedure))),
        [first, rest @ ..] => {
            put_tries_unusual(code, codes, procedure, rest)?;
            if first.procedure == procedure && is_alone(procedure, *first, rest) {
                return Ok(());
            }
            put_tries_case(code, codes, *first)
        }
    }
}

/// The code number of the procedure that a dispatch has for the number of an object goes to a local.
pub fn put_finds_procedure(
    code: &mut Row<Instr>,
    locations: &Locations,
    codes: &[u16],
    cases: &[Case],
    to: u8,
    operand: Operand,
) -> Result<(), NoMemory>
    requires there { to < length locations.now.widths }
    requires operand { IsThere (layout locations.now) operand }
    ensures { OnOk result (code.new ≡ code.old ++ finds_procedure (layout locations.now) (code_from codes.now) cases.now to operand) }
{
    put_brings(code, locations, operand, 24, 2)?;
    put_tries_unusual(code, codes, usual(cases), cases)?;
    put_gives(code, locations, to, 22, 2)
}
