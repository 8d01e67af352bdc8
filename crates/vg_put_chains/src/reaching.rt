// How bytes of a frame are reached.
ghost use Rattle.std.specs.Prelude.{◌≡◌, ◌≤◌, ◌+◌, ◌++◌, IfOk};
ghost use Rattle.vg_templates.specs.Transfers.{reach};

use avr_instr::{Base, Instr, Register, RegisterPair, SixBits, UpperRegister, WidePair};
use vg_base::{NoMemory, Row};

/// The pointer from which bytes are reached, and the displacement of the first one.
#[derive(Clone, Copy)]
pub struct Reached {
    pub base: Base,
    pub displacement: u8,
}

/// The code after which the bytes of a frame from an index on can be reached: none where Y reaches them, and else Z is set.
pub fn put_reach(code: &mut Row<Instr>, at: u16, width: u8) -> Result<Reached, NoMemory>
    requires { width ≤ 4 }
    ensures code { IfOk result (λ r. code.new ≡ code.old ++ (reach at width).code) }
    ensures base { IfOk result (λ r. r.base ≡ (reach at width).base) }
    ensures displacement { IfOk result (λ r. r.displacement ≡ (reach at width).displacement) }
    ensures near { IfOk result (λ r. r.displacement + width ≤ 64) }
{
    let end = u32::from(at) + u32::from(width);
    if end < 64 {
        return Ok(Reached {
            base: Base::Y,
            displacement: at as u8 + 1,
        });
    }
    code.push(Instr::Movw(RegisterPair::new(30), RegisterPair::new(28)))?;
    if end < 124 {
        code.push(Instr::Adiw(WidePair::new(30), SixBits::new(60)))?;
        return Ok(Reached {
            base: Base::Z,
            displacement: at as u8 + 1 - 60,
        });
    }
    let less = 65535 - at;
    code.push(Instr::Subi(UpperRegister::new(30), (less % 256) as u8))?;
    code.push(Instr::Sbci(UpperRegister::new(31), (less / 256) as u8))?;
    Ok(Reached {
        base: Base::Z,
        displacement: 0,
    })
}
