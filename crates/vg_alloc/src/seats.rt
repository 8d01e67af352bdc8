// Where the locals of a procedure lie that are no parameters, one behind the other.
ghost use Rattle.std.specs.Prelude.{◌≡◌, ◌+◌, ◌*◌, ◌<◌, ◌≤◌, ◌++◌, IfOk, OnOk, length};
ghost use Rattle.vg_templates.specs.Calls.{sum_of};
ghost use Rattle.vg_templates.specs.Framed.{seat_for, with_seat, taken_from};
ghost use Rattle.vg_templates.specs.Living.{lasts};
ghost use Rattle.vg_alloc.specs.Frames.{taken_of, held_spot, held_spots, IsFew};

use crate::living::lasts;
use crate::spot::Spot;
use std::alloc::Global;
use vg_base::{NoMemory, Row};
use vg_lin::Instr;

/// How many bytes are taken: of the registers from r2 on, which outlive calls; of those from r8 on, which do not; and of the slots.
#[derive(Clone, Copy)]
pub struct Taken {
    pub lasting: u8,
    pub passing: u8,
    pub slots: u16,
}

// The spot of a local, and what is taken behind it.
fn seated(taken: Taken, lasting: bool, width: u8) -> (Spot, Taken)
    requires few { IsFew taken }
    requires slots { taken.slots + width < 0x1000 }
    requires narrow { width < 0x1000 }
    ensures spot { result.0 ≡ held_spot (taken_of taken) (seat_for (taken_of taken) lasting width) }
    ensures taken { taken_of result.1 ≡ with_seat (taken_of taken) (seat_for (taken_of taken) lasting width) width }
    ensures few { IsFew result.1 }
    ensures slots { result.1.slots ≤ taken.slots + width }
{
    if !lasting && u16::from(taken.passing) + u16::from(width) <= 10 {
        let behind = Taken {
            lasting: taken.lasting,
            passing: taken.passing + width,
            slots: taken.slots,
        };
        return (Spot::Registers(8 + taken.passing), behind);
    }
    if u16::from(taken.lasting) + u16::from(width) <= 6 {
        let behind = Taken {
            lasting: taken.lasting + width,
            passing: taken.passing,
            slots: taken.slots,
        };
        return (Spot::Registers(2 + taken.lasting), behind);
    }
    let behind = Taken {
        lasting: taken.lasting,
        passing: taken.passing,
        slots: taken.slots + u16::from(width),
    };
    (Spot::Frame(taken.slots), behind)
}

/// The spots of the locals with these widths, from this one on, go behind others, where so many bytes are taken. It answers what is taken behind them. The error
/// is want of memory.
pub fn put_seats(
    alloc: Global,
    spots: &mut Row<Spot>,
    code: &[Instr],
    local: u8,
    widths: &[u8],
    taken: Taken,
) -> Result<Taken, NoMemory>
    requires few { IsFew taken }
    requires slots { taken.slots + sum_of widths.now < 0x1000 }
    requires locals { local + length widths.now < 256 }
    ensures spots { OnOk result (spots.new ≡ spots.old ++ held_spots (lasts code.now) local widths.now (taken_of taken)) }
    ensures taken { IfOk result (λ behind. taken_of behind ≡ taken_from (lasts code.now) local widths.now (taken_of taken)) }
    ensures few { IfOk result IsFew }
    ensures slots { IfOk result (λ behind. behind.slots ≤ taken.slots + sum_of widths.now) }
{
    match widths {
        [] => Ok(taken),
        [width, rest @ ..] => {
            let lasting = lasts(alloc, code, local)?;
            let (spot, behind) = seated(taken, lasting, *width);
            spots.push(spot)?;
            if rest.is_empty() {
                return Ok(behind);
            }
            put_seats(alloc, spots, code, local + 1, rest, behind)
        }
    }
}
