// Which procedures get a receiver.
ghost use Rattle.std.specs.Prelude.{◌≡◌, IfOk};
ghost use Rattle.vg_pack_calls.specs.Receivers.{gets, receivers_from};

use std::alloc::Global;
use vg_base::{NoMemory, Row};
use vg_core::{Method, Owner};

/// Of each method, whether its procedure gets a receiver: a method of a class does, and each that a delegate may be of.
pub fn receivers(
    alloc: Global,
    methods: &[Method],
    bindable: &[bool],
) -> Result<Row<bool>, NoMemory>
    ensures { IfOk result (λ rows. rows ≡ receivers_from bindable.now 0 methods.now) }
{
    let mut rows = Row::new(alloc);
    for index in 0..methods.len() {
        rows.push(gets(methods[index].owner, bindable, index))?;
    }
    Ok(rows)
}

// Whether the procedure of a method of this owner gets a receiver.
fn gets(owner: Owner, bindable: &[bool], method: usize) -> bool
    ensures { result ≡ gets bindable.now method owner }
{
    match owner {
        Owner::InClass(_) => true,
        Owner::InComponent(_) => match bindable.get(method) {
            Some(found) => *found,
            None => false,
        },
    }
}
