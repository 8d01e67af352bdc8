// New arrays.
ghost use Rattle.std.specs.Prelude.{◌≡◌, ℕ, List, Some, slice_get, IfOk, IfSome, IsTrue};
ghost use Rattle.vg_syntax.specs.Reads.{spot};
ghost use Rattle.vg_syntax.specs.Numbering.{with_id};
ghost use Rattle.vg_syntax.specs.Tree.{ArrayType as SpecArrayType};
ghost use Rattle.vg_tree.specs.Held.{type_at};
ghost use Rattle.vg_source.specs.Types as source_type;
ghost use Rattle.vg_source.specs.Steps as source;
ghost use Rattle.vg_source.specs.Declared.{written_type};
ghost use Rattle.vg_source.specs.Resolved.{IsValue, doing, then_step};
ghost use Rattle.vg_rules.specs.Breach.{asks, ◌or◌};
ghost use Rattle.vg_rules.specs.Bodies.{is_int};
ghost use Rattle.vg_rules.specs.Written.{type_keeps};
ghost use Rattle.vg_core.specs.declared.types.CoreType.{CoreType as SpecType};
ghost use Rattle.vg_core.specs.declared.types.CoreType.TheVariants.{IntType};
ghost use Rattle.vg_core.specs.HeldProgram.{code_of};
ghost use Rattle.vg_types_tables.specs.declared.declared.Declared.{Declared as SpecDeclared};
ghost use Rattle.vg_types_tables.specs.declared.judged.Head.TheVariants.{Nothing};
ghost use Rattle.vg_types_views.specs.Judges.{Judges};
ghost use Rattle.vg_types_tables.specs.Views.{declarations_at, type_view, code_view, scope_view};
ghost use Rattle.vg_types_tables.specs.Declares.{Declares};
ghost use Rattle.vg_types_tables.specs.Promises.{Puts, Leads};
ghost use Rattle.vg_types_leaves.specs.Judgements.{HasValue, Shows};

use std::alloc::Global;
use vg_base::{Names, NodeId, Place, Refusal};
use vg_core::{Code, CoreType, Step};
use vg_tree::{Node, TypeTree};
use vg_types_tables::{
    BodyKind, Declared, Head, Judged, Locals, Standing, has_levels, number_of, two, type_keeps,
    written,
};
use vg_types_views::Broken;

/// A new array of elements of a written type, whose length was judged: rules 8 and 25.
pub fn array_made(
    alloc: Global,
    names: &Names,
    root: &Node,
    declared: &Declared,
    body: BodyKind,
    locals: &Locals,
    place: Place,
    element: &TypeTree,
    size: Judged,
    id: u32,
) -> Result<Standing, Refusal<Broken>>
    requires declares { Declares names.now root.now declared.now }
    requires typed { Puts declared.now.tables body locals.now (code_of size.code) size.type_ }
    ensures judged { Judges (Shows names.now declared.now locals.now (then_step
        (doing (code_view names.now declared.now size.code) (IsValue (type_view names.now declared.now size.type_)) (scope_view names.now declared.now locals.now))
        (source.NewArray id (written_type (type_at names.now element.now)))
        (IsValue (source_type.ArrayType (written_type (type_at names.now element.now)))))) result
        (asks (type_keeps (declarations_at names.now root.now) (SpecArrayType (type_at names.now element.now))) 8 (with_id id (spot place))
        or asks (is_int (IsValue (type_view names.now declared.now size.type_))) 25 (with_id id (spot place))) }
    ensures typed { IfOk result (λ j. Leads declared.now.tables body locals.now Nothing (code_of j.code) j.head) }
    ensures value { IfOk result (λ j. HasValue j.head) }
    ensures next { IfOk result (λ j. j.next ≡ size.next) }
{
    if !array_keeps(names, root, declared, element) {
        return Err(Refusal::Fault(Broken {
            rule: 8,
            node: NodeId(id),
        }));
    }
    if !is_int(size.type_) {
        return Err(Refusal::Fault(Broken {
            rule: 25,
            node: NodeId(id),
        }));
    }
    match element_number(names, root, declared, element) {
        Some(number) => {
            let code = two(alloc, size.code, Code::Do(Step::NewArray(id, number)))?;
            Ok(Standing {
                head: Head::Value(CoreType::ArrayType(number)),
                code,
                next: size.next,
            })
        }
        // The tables have all types that are written.
        None => Err(Refusal::NoMemory),
    }
}

// Whether the type of the arrays of these elements is written rightly.
fn array_keeps(names: &Names, root: &Node, declared: &Declared, element: &TypeTree) -> bool
    requires declares { Declares names.now root.now declared.now }
    ensures { result ≡ type_keeps (declarations_at names.now root.now) (SpecArrayType (type_at names.now element.now)) }
{
    has_levels(element, 3) && type_keeps(names, root, declared, element)
}

// The number of a written type. None where the tables lack it.
fn element_number(
    names: &Names,
    root: &Node,
    declared: &Declared,
    element: &TypeTree,
) -> Option<u32>
    requires declares { Declares names.now root.now declared.now }
    ensures { IfSome result (λ n. (t : SpecType) × (slice_get declared.now.tables.types n ≡ Some t)
        × (type_view names.now declared.now t ≡ written_type (type_at names.now element.now))) }
{
    let type_ = written(names, root, declared, element)?;
    number_of(declared, type_)
}

/// Whether a type is that of ints.
pub(crate) fn is_int(type_: CoreType) -> bool
    ensures is { IsTrue result → type_ ≡ IntType }
    ensures keeps { (texts : List (List ℕ)) (d : SpecDeclared) → result ≡ is_int (IsValue (type_view texts d type_)) }
{
    match type_ {
        CoreType::IntType => true,
        CoreType::BoolType
        | CoreType::CharType
        | CoreType::RawType(_)
        | CoreType::NullType
        | CoreType::ClassType(_)
        | CoreType::ArrayType(_)
        | CoreType::FunctionType(_, _)
        | CoreType::NoType
        | CoreType::MoreTypes(_, _) => false,
    }
}
