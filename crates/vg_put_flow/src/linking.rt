// The entry of a procedure, its exit, and its return.
ghost use Rattle.std.specs.Prelude.{◌≡◌, ◌+◌, ◌<◌, ◌≤◌, ◌++◌, OnOk, length};
ghost use Rattle.vg_templates.specs.Layouts.{width_of};
ghost use Rattle.vg_templates.specs.Linkage.{prologue, epilogue, settles_one, settles_from};
ghost use Rattle.vg_templates.specs.Returns.{returns_value};
ghost use Rattle.vg_alloc.specs.Locations.{layout};
ghost use Rattle.vg_put_values.specs.Within.{IsThere};
ghost use Rattle.vg_put_flow.specs.Arriving.{HaveRoom};

use avr_instr::Instr;
use vg_alloc::Locations;
use vg_base::{NoMemory, Row};
use vg_lin::Operand;
use vg_put_chains::{put_drops_slots, put_frame_pointer, put_pops, put_pushes};
use vg_put_values::{put_brings, put_gives};

// A parameter that arrived in registers goes from there to its spot, where it is kept.
fn put_settles_one(
    code: &mut Row<Instr>,
    locations: &Locations,
    kept: bool,
    param: u8,
    first: u8,
) -> Result<(), NoMemory>
    requires there { param < length locations.now.widths }
    requires top { first + width_of (layout locations.now) param ≤ 32 }
    ensures { OnOk result (code.new ≡ code.old ++ settles_one kept (layout locations.now) param first) }
{
    if kept {
        let width = locations.width(param);
        return put_gives(code, locations, param, first, width);
    }
    Ok(())
}

// All that arrived do, one behind the other from this parameter and this register on.
fn put_settles(
    code: &mut Row<Instr>,
    locations: &Locations,
    param: u8,
    first: u8,
    kept: &[bool],
) -> Result<(), NoMemory>
    requires room { HaveRoom (layout locations.now) param first kept.now }
    ensures { OnOk result (code.new ≡ code.old ++ settles_from (layout locations.now) param first kept.now) }
{
    match kept {
        [] => Ok(()),
        [one, rest @ ..] => {
            let width = locations.width(param);
            put_settles_one(code, locations, *one, param, first)?;
            put_settles(code, locations, param + 1, first + width, rest)
        }
    }
}

/// The procedure saves registers and takes its slots, and parameters that arrived in registers go to their spots.
#[tactic(auto, using(crate::proofs::Arriving::arrivals_have_room))]
pub fn put_prologue(code: &mut Row<Instr>, locations: &Locations) -> Result<(), NoMemory>
    ensures { OnOk result (code.new ≡ code.old ++ prologue (layout locations.now)) }
{
    locations.keeps();
    put_pushes(code, locations.saved())?;
    put_frame_pointer(code, locations.pointed(), locations.slots())?;
    put_settles(code, locations, 0, 18, locations.arrives())
}

/// It drops its slots, gives back what it saved, and goes back.
pub fn put_epilogue(code: &mut Row<Instr>, locations: &Locations) -> Result<(), NoMemory>
    ensures { OnOk result (code.new ≡ code.old ++ epilogue (layout locations.now)) }
{
    put_drops_slots(code, locations.slots())?;
    put_pops(code, locations.saved())?;
    code.push(Instr::Ret)
}

/// It returns so many bytes of a value.
pub fn put_returns_value(
    code: &mut Row<Instr>,
    locations: &Locations,
    operand: Operand,
    count: u8,
) -> Result<(), NoMemory>
    requires narrow { count ≤ 4 }
    requires operand { IsThere (layout locations.now) operand }
    ensures { OnOk result (code.new ≡ code.old ++ returns_value (layout locations.now) operand count) }
{
    put_brings(code, locations, operand, 22, count)?;
    put_epilogue(code, locations)
}
