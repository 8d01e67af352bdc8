// Whether handlers receive nothing.
ghost use Rattle.std.specs.Prelude.{◌↔◌, map, IfOk, IsTrue};
ghost use Rattle.vg_link.specs.Linking.{CanHandle};
ghost use Rattle.vg_compile.specs.Compile.{handler_of};
ghost use Rattle.vg_compile.specs.Handlers.{AllCanHandle, CanAnswer};

use std::alloc::Global;
use vg_base::NoMemory;
use vg_call_need::handler_of;
use vg_covered::receives_nothing;
use vg_lin::LinProc;
use vg_packed::Entrance;

/// Whether the procedure that each interrupt calls by these handlers is one that an interrupt can call: none of its arguments is pushed, and it keeps none of
/// those that arrive in registers. Of two handlers for one vector the first one counts. The error is want of memory.
pub fn all_can_handle(
    alloc: Global,
    procedures: &[LinProc],
    handlers: &[Entrance],
) -> Result<bool, NoMemory>
    ensures { IfOk result (λ can. IsTrue can ↔ AllCanHandle procedures.now (map handler_of handlers.now)) }
{
    for handler in handlers {
        if !can_answer(alloc, procedures, handlers, handler.vector)? {
            return Ok(false);
        }
    }
    Ok(true)
}

// Whether the procedure for a vector, if there is one, is one that an interrupt can call.
#[tactic(auto, using(crate::proofs::Unlinked::same_handler))]
fn can_answer(
    alloc: Global,
    procedures: &[LinProc],
    handlers: &[Entrance],
    vector: u8,
) -> Result<bool, NoMemory>
    ensures { IfOk result (λ can. IsTrue can ↔ CanAnswer procedures.now (map handler_of handlers.now) vector) }
{
    match handler_of(handlers, vector) {
        Some(number) => can_handle(alloc, procedures, number),
        None => Ok(true),
    }
}

// Whether an interrupt can call the procedure of this number.
fn can_handle(alloc: Global, procedures: &[LinProc], number: u16) -> Result<bool, NoMemory>
    ensures { IfOk result (λ can. IsTrue can ↔ CanHandle procedures.now number) }
{
    match procedures.get(usize::from(number)) {
        Some(procedure) => receives_nothing(alloc, procedure),
        None => Ok(false),
    }
}
