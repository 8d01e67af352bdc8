// `break` and `continue`.
ghost use Rattle.std.specs.Prelude.{◌≡◌, ◌+◌, ◌<◌, ◌^◌, Ok, Err, if◌then◌else◌};
ghost use Rattle.vg_base.specs.declared.refusal.Refusal.TheVariants.{Fault};

use crate::fault::broken;
use vg_base::Refusal;
use vg_core::Code;
use vg_types_tables::{BodyKind, Done};
use vg_types_views::Broken;

/// A jump out of a loop or on to its next turn.
pub fn jump(body: BodyKind, code: Code, id: u32) -> Result<Done, Refusal<Broken>>
    requires { id + 1 < 2 ^ 32 }
    ensures { result ≡ if body.in_loop then Ok (record { code = code; next = id + 1 }) else Err (Fault (record { rule = 24; node = record { 0 = id } })) }
{
    if body.in_loop {
        Ok(Done { code, next: id + 1 })
    } else {
        Err(broken(24, id))
    }
}
