use super::{Body, Program, Step, rename};
use std::alloc::Global;
use vg_base::NoMemory;

fn boxed(alloc: Global, step: Step) -> Result<Box<Body>, NoMemory> {
    Ok(Box::new(alloc, Body::Do(step))?)
}

// The place that the loop of the first method calls.
fn place_called(program: &Program) -> Option<u8> {
    let Program::More(_, body, _) = program else {
        return None;
    };
    let Body::Loop(_, inner, _) = body else {
        return None;
    };
    match &**inner {
        Body::Do(Step::Call(place)) => Some(*place),
        _ => None,
    }
}

#[test]
fn names_become_places(rt: HostRuntime) -> Result<(), NoMemory> {
    let alloc = rt.alloc();
    let writes = Body::Then(
        boxed(alloc, Step::Read(0x39))?,
        boxed(alloc, Step::Write(0x38))?,
    );
    let last = Box::new(alloc, Program::Empty)?;
    let second = Box::new(alloc, Program::More(7, writes, last))?;
    let calls = Body::Loop(
        boxed(alloc, Step::Read(0x36))?,
        boxed(alloc, Step::Call(7))?,
        Box::new(alloc, Body::Nothing)?,
    );
    let renamed = rename(alloc, &Program::More(5, calls, second))?;
    assert!(rt; place_called(&renamed) == Some(1));
    Ok(())
}
