// Code of parts.
ghost use Rattle.std.specs.Prelude.{◌≡◌, IfOk};
ghost use Rattle.vg_meaning.specs.Code.{Then};
ghost use Rattle.vg_core.specs.HeldProgram.{code_of, code_row, code_chain};

use std::alloc::Global;
use vg_base::NoMemory;
use vg_core::Code;

/// One behind another, and then nothing. It takes no memory.
pub fn row(codes: Vec<Code>) -> Code
    ensures { code_of result ≡ code_row codes.items }
{
    Code::Row(codes)
}

/// One behind another; the last of them ends it. It takes no memory.
pub fn chain(codes: Vec<Code>) -> Code
    ensures { code_of result ≡ code_chain codes.items }
{
    Code::Chain(codes)
}

/// One behind the other.
pub fn two(alloc: Global, a: Code, b: Code) -> Result<Code, NoMemory>
    ensures { IfOk result (λ c. code_of c ≡ Then (code_of a) (code_of b)) }
{
    let mut codes = Vec::with_capacity(alloc, 2)?;
    codes.push(a)?;
    codes.push(b)?;
    Ok(chain(codes))
}

/// One behind another, the last two as one.
pub fn three(alloc: Global, a: Code, b: Code, c: Code) -> Result<Code, NoMemory>
    ensures { IfOk result (λ d. code_of d ≡ Then (code_of a) (Then (code_of b) (code_of c))) }
{
    let mut codes = Vec::with_capacity(alloc, 3)?;
    codes.push(a)?;
    codes.push(b)?;
    codes.push(c)?;
    Ok(chain(codes))
}
