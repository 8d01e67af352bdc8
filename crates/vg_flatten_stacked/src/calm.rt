// Code that neither loops nor leaves.
ghost use Rattle.std.specs.Prelude.{◌≡◌, ◌&&◌};
ghost use Rattle.vg_firm.specs.Held.{code_of, list_of};
ghost use Rattle.vg_flatten_control.specs.Weights.{arms_list};
ghost use Rattle.vg_flatten_pushed.specs.Stacked.{is_calm};

use vg_firm::Code;

/// Whether code neither loops nor leaves a loop or the body.
#[cycle(calm)]
pub fn is_calm(code: &Code) -> bool
    ensures { result ≡ is_calm (code_of code.now) }
{
    match code {
        Code::Row(codes) => row_is_calm(codes.as_slice()),
        Code::Do(_) => true,
        Code::If(first, rest) => is_calm(first) && is_calm(rest),
        Code::Arms(all, last) => arms_are_calm(all.as_slice(), last),
        Code::Arm(condition, block) => is_calm(condition) && is_calm(block),
        _ => false,
    }
}

// The same of one code behind another.
#[cycle(calm)]
fn row_is_calm(codes: &[Code]) -> bool
    ensures { result ≡ is_calm (list_of codes.now) }
{
    'parts: for part in codes {
        if !is_calm(part) {
            return false;
        }
    }
    true
}

// The same of the arms of an `if`, and of what is done where no condition holds.
#[cycle(calm)]
fn arms_are_calm(all: &[Code], last: &Code) -> bool
    ensures { result ≡ is_calm (arms_list all.now (code_of last.now)) }
{
    match all {
        [] => is_calm(last),
        [code, more @ ..] => is_calm(code) && arms_are_calm(more, last),
    }
}

/// Whether both ways of a choice are such code.
pub fn choice_is_calm(first: &Code, rest: &Code) -> bool
    ensures { result ≡ is_calm (code_of first.now) && is_calm (code_of rest.now) }
{
    is_calm(first) && is_calm(rest)
}

/// Whether an arm's block and the other arms are.
pub fn arm_is_calm(block: &Code, more: &[Code], last: &Code) -> bool
    ensures { result ≡ is_calm (code_of block.now) && is_calm (arms_list more.now (code_of last.now)) }
{
    is_calm(block) && arms_are_calm(more, last)
}
