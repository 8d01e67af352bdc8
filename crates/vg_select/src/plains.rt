// Plain instructions.
ghost use Rattle.std.specs.Prelude.{◌≡◌, ◌++◌, OnOk, slice_get};
ghost use Rattle.vg_codes.specs.Dispatch.{cases_of};
ghost use Rattle.vg_templates.specs.Plains.{plain_template};
ghost use Rattle.vg_alloc.specs.Locations.{layout};
ghost use Rattle.vg_put_operations.specs.Coded.{code_from};
ghost use Rattle.vg_select.specs.Selected.{with_codes};
ghost use Rattle.vg_select.specs.Within.{IsPlainWithin};

use crate::computing::{put_computation, put_pops_value};
use avr_instr::Instr;
use std::alloc::Global;
use vg_alloc::Locations;
use vg_base::{NoMemory, Row};
use vg_codes::Case;
use vg_lin::{Memory, Plain};
use vg_put_operations::{
    code_of, put_divides_steps, put_finds_procedure, put_loads_table, put_multiplies,
};
use vg_put_plain::{
    put_copies, put_copies_whole, put_loads_column, put_pushes_value, put_reads_device, put_stops,
    put_stores_column, put_writes_device,
};

// The cases of a dispatch; none where the program has no such dispatch.
fn cases_at(dispatches: &[Row<Case>], place: u32) -> &[Case]
    ensures { result.now ≡ cases_of (slice_get dispatches.now place) }
{
    match dispatches.get(place as usize) {
        Some(cases) => cases.as_slice(),
        None => &[],
    }
}

/// The code of a plain instruction, by the code numbers of the procedures and the dispatches of the program.
pub fn put_plain(
    alloc: Global,
    code: &mut Row<Instr>,
    locations: &Locations,
    codes: &[u16],
    dispatches: &[Row<Case>],
    instr: Plain,
) -> Result<(), NoMemory>
    requires { IsPlainWithin (layout locations.now) instr }
    ensures { OnOk result (code.new ≡ code.old ++ plain_template (layout locations.now) (with_codes (code_from codes.now) dispatches.now) instr) }
{
    match instr {
        Plain::Copy(to, from) => put_copies(code, locations, to, from),
        Plain::Compute(computation) => put_computation(alloc, code, locations, computation),
        Plain::Product(to, left, right) => {
            put_multiplies(alloc, code, locations, to, left, right)
        }
        Plain::DivideSteps(remainder, dividend, divisor) => {
            put_divides_steps(code, locations, remainder, dividend, divisor)
        }
        Plain::Load(Memory::Ram, width, to, address) => {
            put_loads_column(code, locations, width, to, address)
        }
        Plain::Load(Memory::Flash, width, to, address) => {
            put_loads_table(code, locations, width, to, address)
        }
        Plain::Store(width, address, from) => {
            put_stores_column(alloc, code, locations, width, address, from)
        }
        Plain::ReadDevice(to, address) => put_reads_device(code, locations, to, address),
        Plain::WriteDevice(address, from) => {
            put_writes_device(alloc, code, locations, address, from)
        }
        Plain::Push(width, from) => put_pushes_value(alloc, code, locations, width, from),
        Plain::Pop(width, to) => put_pops_value(code, locations, width, to),
        Plain::Find(dispatch, to, object) => put_finds_procedure(
            code,
            locations,
            codes,
            cases_at(dispatches, dispatch),
            to,
            object,
        ),
        Plain::CodeOf(procedure, to) => {
            let number = u32::from(code_of(codes, procedure));
            put_copies_whole(code, locations, to, number)
        }
        Plain::Stop(exception) => put_stops(code, exception),
    }
}
