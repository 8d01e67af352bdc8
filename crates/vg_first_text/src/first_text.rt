// Programs of one component whose main writes constants to device registers.
ghost use Rattle.std.specs.Prelude.{◌≡◌, ◌≤◌, ℕ, List, IfOk, Err, length};
ghost use Rattle.vg_base.specs.Limits.{text_limit};
ghost use Rattle.vg_first_text.specs.declared.device_write.DeviceWrite.{DeviceWrite as Write};
ghost use Rattle.vg_first_text.specs.FirstSession.{AreDevices};
ghost use Rattle.vg_first_text.specs.FirstText.{IsFirst};

use crate::device_write::DeviceWrite;
use fits::program_writes;
use parts::read_program;
use std::alloc::Global;
use vg_base::{Refusal, Row};
use vg_scan::scan;

mod fits;
mod parts;
mod shape;

/// The text is no program of constants.
#[derive(Clone, Copy, Debug, PartialEq, Eq)]
pub struct NotFirst;

/// The writes of a text of at most 262,144 bytes, where it is a program of constants: one component with one method,
/// which writes bytes to the registers of one device, and which the one entry of the program names.
///
/// The text is read once, and each name is looked up once.
pub fn read_first(alloc: Global, bytes: &[u8]) -> Result<Row<DeviceWrite>, Refusal<NotFirst>>
    requires { length bytes.now ≤ text_limit }
    ensures ok { IfOk result (λ first. IsFirst bytes.now first) }
    ensures devices { IfOk result AreDevices }
    ensures short { IfOk result (λ first. length first ≤ 100) }
    ensures not { (why : NotFirst) → result ≡ Err (Refusal.Fault why) → (writes : List Write) → IsFirst bytes.now writes → ⊥ }
{
    let tokens = scan(alloc, bytes)?;
    let program = read_program(alloc, bytes, tokens.as_slice())?;
    let writes = program_writes(alloc, &program)?;
    Ok(Row::from_vec(writes))
}

/// A law: one text has at most one list of writes.
pub fn one_list_of_writes()
    ensures { (bytes : List ℕ) (writes others : List Write) → IsFirst bytes writes → IsFirst bytes others → writes ≡ others }
{}
