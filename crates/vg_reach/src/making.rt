// What methods make.
ghost use Rattle.std.specs.Prelude.{◌≡◌, IfOk, None, OnOk, is_some, if◌then◌else◌};
ghost use Rattle.vg_core.specs.declared.member.Member.TheVariants as member;
ghost use Rattle.vg_core.specs.HeldProgram.{program_at};
ghost use Rattle.vg_live.specs.Sets.{reason_of};
ghost use Rattle.vg_live.specs.Uses as uses;
ghost use Rattle.vg_reach.specs.Reaches as reaches;
ghost use Rattle.vg_reach.specs.Reaches.{FirstMade, made_of};

use std::alloc::Global;
use vg_base::NoMemory;
use vg_core::{Member, Program, Step};
use vg_live::LiveSet;
use vg_uses::steps_of;

/// A live method, and the node at which it would make an object or an array.
#[derive(Clone, Copy, Debug, PartialEq, Eq)]
pub struct Allocates {
    pub method: u16,
    pub node: u32,
}

// The node at which a step makes something.
fn made_at(step: Step) -> Option<u32>
    ensures { result ≡ uses.made_at step }
{
    match step {
        Step::NewObject(node, _, _) => Some(node),
        Step::NewArray(node, _) => Some(node),
        _ => None,
    }
}

// The lesser of two nodes, where they are there.
fn least_of(first: Option<u32>, second: Option<u32>) -> Option<u32>
    ensures { result ≡ reaches.least_of first second }
{
    match first {
        Some(a) => match second {
            Some(b) => Some(if a <= b { a } else { b }),
            None => Some(a),
        },
        None => second,
    }
}

// The least node at which these steps make something.
fn least_made(steps: &[Step]) -> Option<u32>
    ensures { result ≡ reaches.least_made steps.now }
{
    let mut least = None;
    for step in steps {
        least = least_of(least, made_at(*step));
    }
    least
}

// The least node at which a method makes something.
fn made_in(alloc: Global, program: &Program, method: u16) -> Result<Option<u32>, NoMemory>
    ensures { IfOk result (λ node. node ≡ reaches.made_in (program_at program.now) method) }
{
    let steps = steps_of(alloc, program, method)?;
    Ok(least_made(steps.as_slice()))
}

// The same, where the method is live.
fn made_if_live(
    alloc: Global,
    program: &Program,
    live: &LiveSet,
    method: u16,
) -> Result<Option<u32>, NoMemory>
    ensures { IfOk result (λ node. node ≡ made_of (program_at program.now) live.now method) }
{
    match live.reason(Member::Method(method)) {
        Some(_) => made_in(alloc, program, method),
        None => Ok(None),
    }
}

/// The first live method that makes something, with the first node at which it does.
pub fn first_maker(
    alloc: Global,
    program: &Program,
    live: &LiveSet,
) -> Result<Option<Allocates>, NoMemory>
    ensures { IfOk result (FirstMade (program_at program.now) live.now) }
{
    let Ok(count) = u16::try_from(live.methods.len()) else {
        // No text has so many methods.
        return Err(NoMemory);
    };
    for method in 0..count {
        match made_if_live(alloc, program, live, method)? {
            Some(node) => return Ok(Some(Allocates { method, node })),
            None => {}
        }
    }
    Ok(None)
}
