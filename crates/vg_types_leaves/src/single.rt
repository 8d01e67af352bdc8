// One step that leaves a value.
ghost use Rattle.std.specs.Prelude.{◌≡◌, ◌+◌, ◌<◌, ◌^◌, [], ◌∷◌, ℕ, List};
ghost use Rattle.vg_meaning.specs.Code.{Do};
ghost use Rattle.vg_core.specs.declared.types.CoreType.{CoreType as SpecType};
ghost use Rattle.vg_core.specs.declared.program.Owner.{Owner};
ghost use Rattle.vg_core.specs.declared.step.Step.TheVariants.{Put};
ghost use Rattle.vg_core.specs.HeldProgram.{code_of};
ghost use Rattle.vg_core.specs.Types.{HasType};
ghost use Rattle.vg_core.specs.Typing.{Takes};
ghost use Rattle.vg_types_tables.specs.declared.judged.Head.TheVariants.{Nothing, Value};
ghost use Rattle.vg_types_tables.specs.Promises.{Leads, Sees};

use vg_core::{Code, CoreType, CoreValue, Step};
use vg_types_tables::{BodyKind, Declared, Head, Locals, Standing};

/// One step that leaves a value of this type, at the node of this number.
pub fn leaf(
    declared: &Declared,
    body: BodyKind,
    locals: &Locals,
    type_: CoreType,
    step: Step,
    id: u32,
) -> Standing
    requires room { id + 1 < 2 ^ 32 }
    requires typed { (o : Owner) (x : List SpecType) → Sees body.owner o → Takes declared.now.tables locals.now.declared o step x (type_ ∷ x) }
    ensures head { result.head ≡ Value type_ }
    ensures code { code_of result.code ≡ Do step }
    ensures typed { Leads declared.now.tables body locals.now Nothing (code_of result.code) result.head }
    ensures next { result.next ≡ id + 1 }
{
    Standing {
        head: Head::Value(type_),
        code: Code::Do(step),
        next: id + 1,
    }
}

/// A value that is put, at the node of this number.
pub fn put(
    declared: &Declared,
    body: BodyKind,
    locals: &Locals,
    type_: CoreType,
    value: CoreValue,
    id: u32,
) -> Standing
    requires room { id + 1 < 2 ^ 32 }
    requires typed { HasType declared.now.tables [] value type_ }
    ensures head { result.head ≡ Value type_ }
    ensures code { code_of result.code ≡ Do (Put value) }
    ensures typed { Leads declared.now.tables body locals.now Nothing (code_of result.code) result.head }
    ensures next { result.next ≡ id + 1 }
{
    leaf(declared, body, locals, type_, Step::Put(value), id)
}
