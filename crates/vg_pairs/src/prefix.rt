// The operator that code is.
ghost use Rattle.std.specs.Prelude.{◌≡◌, length};
ghost use Rattle.vg_core.specs.HeldProgram.{code_of, code_row, code_chain};
ghost use Rattle.vg_meaning.specs.Code.{Do};
ghost use Rattle.vg_pairs.specs.Pairs.{prefix_in};

use vg_core::{Code, CoreType, Prefix, Step};

/// The operator, and the type of its operand, where code is one operator before an operand and no more. It takes no memory.
#[cycle(alone)]
pub fn prefix_of(code: &Code) -> Option<(Prefix, CoreType)>
    ensures { result ≡ prefix_in (code_of code.now) }
{
    match code {
        Code::Do(step) => prefix_step(*step),
        Code::Chain(codes) => prefix_alone(codes.as_slice()),
        Code::Row(_) => None,
        Code::If(_, _) => None,
        Code::Arm(_, _) => None,
        Code::Loop(_, _, _) => None,
        Code::Break => None,
        Code::Continue => None,
        Code::Return => None,
        Code::Arms(all, last) => {
            if all.as_slice().len() == 0 {
                prefix_of(last)
            } else {
                None
            }
        }
    }
}

// The same of a chain, which is one code where it has no more.
#[cycle(alone)]
fn prefix_alone(codes: &[Code]) -> Option<(Prefix, CoreType)>
    ensures { result ≡ prefix_in (code_chain codes.now) }
{
    if codes.len() == 1 {
        prefix_of(&codes[0])
    } else {
        None
    }
}

// The same of a step.
fn prefix_step(step: Step) -> Option<(Prefix, CoreType)>
    ensures { result ≡ prefix_in (Do step) }
{
    match step {
        Step::Apply(operator, type_) => Some((operator, type_)),
        _ => None,
    }
}
