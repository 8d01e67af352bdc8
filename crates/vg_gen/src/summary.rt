// The lines that tell of a generated program.
ghost use Rattle.std.specs.Prelude.{◌≡◌, ◌++◌, IfOk, OnOk, codes, decimal};
ghost use Rattle.vg_gen.specs.Summary.{summary};

use itoa::Buffer;
use std::alloc::Global;
use vg_base::{NoMemory, Row};

/// The four lines `try n`, `objects k`, `methods k` and `static k` of the program with n objects: how many of its objects and of its methods are live, and
/// the bytes of its static area, in decimal.
pub fn summary_text(
    alloc: Global,
    n: u32,
    objects: u32,
    methods: u32,
    static_bytes: u16,
) -> Result<Row<u8>, NoMemory>
    ensures { IfOk result (λ text. text ≡ summary n objects methods static_bytes) }
{
    let mut text = Row::new(alloc);
    put_line(&mut text, b"try ", n)?;
    put_line(&mut text, b"objects ", objects)?;
    put_line(&mut text, b"methods ", methods)?;
    put_line(&mut text, b"static ", u32::from(static_bytes))?;
    Ok(text)
}

// Puts what a line says, and its number.
fn put_line(text: &mut Row<u8>, says: &[u8], number: u32) -> Result<(), NoMemory>
    ensures { OnOk result (text.new ≡ text.old ++ says.now ++ decimal number ++ codes "\n") }
{
    text.append(says)?;
    text.append(Buffer::new().format(number).as_bytes())?;
    text.append(b"\n")
}
