// What is called, and its body.
ghost use Rattle.std.specs.Prelude.{◌≡◌, ◌*◌, ◌+◌, ◌≤◌, Some, None, IfSome, MatchOption, is_some, slice_get};
ghost use Rattle.vg_core.specs.HeldProgram.{body_at, program_at};
ghost use Rattle.vg_interp.specs.Weights.{parts_of, weight, whole};

use vg_core::{Body, Class, Code, Method, Program, Tables};

/// A method.
pub fn method_at(tables: &Tables, number: u16) -> Option<&Method>
    ensures { MatchOption result (slice_get tables.entry.now.methods number ≡ None) (λ found. slice_get tables.entry.now.methods number ≡ Some found.now) }
{
    tables.methods.as_slice().get(usize::from(number))
}

/// A class.
pub fn class_at(tables: &Tables, number: u16) -> Option<&Class>
    ensures { MatchOption result (slice_get tables.entry.now.classes number ≡ None) (λ found. slice_get tables.entry.now.classes number ≡ Some found.now) }
{
    tables.classes.as_slice().get(usize::from(number))
}

/// Whether there is a component of this number.
pub fn is_component(tables: &Tables, number: u16) -> bool
    ensures { result ≡ is_some (slice_get tables.now.components number) }
{
    tables
        .components
        .as_slice()
        .get(usize::from(number))
        .is_some()
}

/// The condition and the block of an arm.
pub fn arm_parts(code: &Code) -> Option<(&Code, &Code)>
    ensures { MatchOption result (parts_of code.entry.now ≡ None) (λ found. parts_of code.entry.now ≡ Some (found.0.now, found.1.now)) }
{
    match code {
        Code::Arm(condition, block) => {
            let condition: &Code = condition;
            let block: &Code = block;
            Some((condition, block))
        }
        Code::Row(_)
        | Code::Chain(_)
        | Code::Do(_)
        | Code::If(_, _)
        | Code::Arms(_, _)
        | Code::Loop(_, _, _)
        | Code::Break
        | Code::Continue
        | Code::Return => None,
    }
}

/// The body of a method; it has less than the whole program.
#[tactic(auto, using(crate::proofs::Rows::at_bodies))]
pub fn method_body(program: &Program, number: u16) -> Option<&Body>
    ensures found { MatchOption result (slice_get (program_at program.entry.now).methods number ≡ None) (λ found.
        slice_get (program_at program.entry.now).methods number ≡ Some (body_at found.now)) }
    ensures light { IfSome result (λ found. 8 * weight found.now.code + 8 ≤ whole program.entry.now) }
{
    match body_in(program.methods.as_slice(), number) {
        Some(found) => Some(found),
        None => None,
    }
}

/// The construction of a class; it has less than the whole program.
#[tactic(auto, using(crate::proofs::Rows::at_bodies))]
pub fn making_body(program: &Program, number: u16) -> Option<&Body>
    ensures found { MatchOption result (slice_get (program_at program.entry.now).makings number ≡ None) (λ found.
        slice_get (program_at program.entry.now).makings number ≡ Some (body_at found.now)) }
    ensures light { IfSome result (λ found. 8 * weight found.now.code + 8 ≤ whole program.entry.now) }
{
    match body_in(program.makings.as_slice(), number) {
        Some(found) => Some(found),
        None => None,
    }
}

/// The initialisation of a component; it has less than the whole program.
#[tactic(auto, using(crate::proofs::Rows::at_bodies))]
pub fn start_body(program: &Program, number: u16) -> Option<&Body>
    ensures found { MatchOption result (slice_get (program_at program.entry.now).starts number ≡ None) (λ found.
        slice_get (program_at program.entry.now).starts number ≡ Some (body_at found.now)) }
    ensures light { IfSome result (λ found. 8 * weight found.now.code + 8 ≤ whole program.entry.now) }
{
    match body_in(program.starts.as_slice(), number) {
        Some(found) => Some(found),
        None => None,
    }
}

// The body of this number.
fn body_in(bodies: &[Body], number: u16) -> Option<&Body>
    ensures { MatchOption result (slice_get bodies.entry.now number ≡ None) (λ found. slice_get bodies.entry.now number ≡ Some found.now) }
{
    bodies.get(usize::from(number))
}
