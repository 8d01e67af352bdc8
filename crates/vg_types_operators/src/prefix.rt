// Operators before an operand.
ghost use Rattle.std.specs.Prelude.{◌≡◌, ℕ, List, IfOk};
ghost use Rattle.vg_meaning.specs.Code.{Nothing as NoCode};
ghost use Rattle.vg_syntax.specs.Reads.{spot};
ghost use Rattle.vg_syntax.specs.Numbering.{with_id};
ghost use Rattle.vg_source.specs.Resolved.{IsValue, apply_all, with_prefixes};
ghost use Rattle.vg_rules.specs.Breach.{asks};
ghost use Rattle.vg_rules.specs.Operands.{operand_keeps};
ghost use Rattle.vg_core.specs.HeldProgram.{code_of};
ghost use Rattle.vg_types_tables.specs.declared.declared.Declared.{Declared as SpecDeclared};
ghost use Rattle.vg_types_tables.specs.declared.judged.Head.TheVariants.{Nothing, Value};
ghost use Rattle.vg_types_views.specs.Judges.{Judges};
ghost use Rattle.vg_types_tables.specs.Views.{type_view, code_view};
ghost use Rattle.vg_types_tables.specs.Declares.{Declares, IsKnown};
ghost use Rattle.vg_types_tables.specs.Promises.{Puts, Leads};
ghost use Rattle.vg_types_leaves.specs.Judgements.{HasValue, Shows};
ghost use Rattle.vg_types_operators.specs.Judged.{value_of};
ghost use Rattle.vg_types_operators.specs.Prefixes.{IsPrefix};

use std::alloc::Global;
use vg_base::{Names, NoMemory, NodeId, Place, Refusal};
use vg_core::{Code, CoreType, Prefix, Step};
use vg_syntax::Kind;
use vg_tree::Node;
use vg_types_tables::{BodyKind, Declared, Head, Judged, Locals, Standing, row, two};
use vg_types_views::Broken;

/// An operand that was judged, with the operators before it: rule 18.
pub fn prefixed(
    alloc: Global,
    names: &Names,
    root: &Node,
    declared: &Declared,
    body: BodyKind,
    locals: &Locals,
    place: Place,
    operators: &[Kind],
    operand: Judged,
    id: u32,
) -> Result<Standing, Refusal<Broken>>
    requires declares { Declares names.now root.now declared.now }
    requires known { IsKnown declared.now.tables operand.type_ }
    requires typed { Puts declared.now.tables body locals.now (code_of operand.code) operand.type_ }
    ensures judged { Judges (Shows names.now declared.now locals.now
        (with_prefixes operators.now (value_of names.now declared.now locals.now operand))) result
        (asks (operand_keeps operators.now (IsValue (type_view names.now declared.now operand.type_))) 18 (with_id id (spot place))) }
    ensures typed { IfOk result (λ j. Leads declared.now.tables body locals.now Nothing (code_of j.code) j.head) }
    ensures value { IfOk result (λ j. HasValue j.head) }
    ensures next { IfOk result (λ j. j.next ≡ operand.next) }
{
    let applied = apply_all(
        alloc,
        names,
        declared,
        body,
        locals,
        place,
        operators,
        operand.type_,
        id,
    )?;
    let code = two(alloc, operand.code, applied)?;
    Ok(Standing {
        head: Head::Value(operand.type_),
        code,
        next: operand.next,
    })
}

// All operators before an operand of this type: the one that is nearest to the operand comes first.
fn apply_all(
    alloc: Global,
    names: &Names,
    declared: &Declared,
    body: BodyKind,
    locals: &Locals,
    place: Place,
    operators: &[Kind],
    type_: CoreType,
    id: u32,
) -> Result<Code, Refusal<Broken>>
    ensures judged { Judges (λ c. code_view names.now declared.now c ≡ apply_all operators.now NoCode) result
        (asks (operand_keeps operators.now (IsValue (type_view names.now declared.now type_))) 18 (with_id id (spot place))) }
    ensures typed { IfOk result (λ c. Leads declared.now.tables body locals.now (Value type_) (code_of c) (Value type_)) }
{
    let mut codes = Vec::new(alloc);
    let mut count = operators.len();
    while count > 0 {
        count -= 1;
        match prefix(operators[count], type_)? {
            Some(found) => codes.push(Code::Do(Step::Apply(found, type_)))?,
            None => {
                return Err(Refusal::Fault(Broken {
                    rule: 18,
                    node: NodeId(id),
                }));
            }
        }
    }
    Ok(row(codes))
}

// The operator that a sign before an operand of this type is, where it takes the operand.
fn prefix(sign: Kind, type_: CoreType) -> Result<Option<Prefix>, NoMemory>
    ensures { (texts : List (List ℕ)) (d : SpecDeclared) → IfOk result (IsPrefix texts d sign type_) }
{
    match sign {
        Kind::Minus => match type_ {
            CoreType::IntType => Ok(Some(Prefix::Negative)),
            _ => Ok(None),
        },
        Kind::Not => match type_ {
            CoreType::BoolType => Ok(Some(Prefix::Not)),
            _ => Ok(None),
        },
        Kind::Complement => match type_ {
            CoreType::RawType(_) => Ok(Some(Prefix::Complement)),
            _ => Ok(None),
        },
        // No tree of a text has another sign before an operand.
        _ => Err(NoMemory),
    }
}
