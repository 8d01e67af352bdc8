// The new places of instructions.
ghost use Rattle.std.specs.Prelude.{◌≡◌, ◌<◌, get_or, IfOk};
ghost use Rattle.vg_expand.specs.Code.{places_from};
ghost use Rattle.vg_expand.specs.Refusals.{IsRefusedFor};

use crate::calls::push_instr;
use crate::too_long::TooLong;
use std::alloc::Global;
use vg_base::{Refusal, Row};
use vg_lin::Instr;

/// The new place of each instruction: as many as stand for those before it. The code is made once to see how long it gets. A place above
/// 65,535 is refused.
pub fn places(
    alloc: Global,
    code: &[Instr],
    first: u16,
    widths: &[u8],
) -> Result<Row<u16>, Refusal<TooLong>>
    requires room { first < 65533 }
    ensures refusal { IsRefusedFor result code.now }
    ensures places { IfOk result (λ found. found ≡ places_from (record { first = first; widths = widths.now }) 0 code.now) }
{
    let mut found = Row::new(alloc);
    let mut draft = Row::new(alloc);
    for instr in code {
        let place = draft.len();
        if place > 65_535 {
            return Err(Refusal::Fault(TooLong));
        }
        found.push(place as u16)?;
        push_instr(&mut draft, *instr, found.as_slice(), first, widths)?;
    }
    Ok(found)
}

/// The new place of an instruction, 0 where there is none.
pub fn place_at(places: &[u16], at: u16) -> u16
    ensures { result ≡ get_or places.now at 0 }
{
    match places.get(usize::from(at)) {
        Some(place) => *place,
        None => 0,
    }
}
