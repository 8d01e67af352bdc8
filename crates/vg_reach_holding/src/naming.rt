// What a step names.
ghost use Rattle.std.specs.Prelude.{◌≡◌, OnOk};
ghost use Rattle.vg_reach_holding.specs.Done as done;
ghost use Rattle.vg_reach_holding.specs.Done.{NamesAll};

use vg_base::NoMemory;
use vg_core::{Member, Step};
use vg_reach_marks::Marks;

/// A member that a step of a live method makes live, and the number of the rule.
#[derive(Clone, Copy, Debug, PartialEq, Eq)]
pub struct Named {
    pub member: Member,
    pub rule: u8,
}

// What a step makes live by itself.
fn named_by(step: Step) -> Option<Named>
    ensures { result ≡ done.named_by step }
{
    match step {
        Step::CallComponent(method, _) => Some(Named {
            member: Member::Method(method),
            rule: 3,
        }),
        Step::ComponentMethod(method) => Some(Named {
            member: Member::Method(method),
            rule: 3,
        }),
        Step::ComponentField(field) => Some(Named {
            member: Member::Field(field),
            rule: 5,
        }),
        Step::Field(_, field) => Some(Named {
            member: Member::Field(field),
            rule: 6,
        }),
        Step::Literal(literal) => Some(Named {
            member: Member::Cell(literal),
            rule: 11,
        }),
        _ => None,
    }
}

/// Marks what a step of a method makes live by itself.
pub fn name(marks: &mut Marks, method: u16, step: Step) -> Result<(), NoMemory>
    ensures { OnOk result (NamesAll marks.old marks.new method step) }
{
    match named_by(step) {
        Some(found) => marks.mark(found.member, found.rule, Some(Member::Method(method)), None),
        None => Ok(()),
    }
}
