// Calls of `super`.
ghost use Rattle.std.specs.Prelude.{◌≡◌, ◌+◌, ◌<◌, ◌^◌, Some, slice_get, IfOk, IfSome};
ghost use Rattle.std.specs.List.{AllByRecursion};
ghost use Rattle.vg_core.specs.declared.program.Class.{Class};
ghost use Rattle.vg_rules.specs.Inherited.{params_of_class};
ghost use Rattle.vg_meaning.specs.Code.{Nothing};
ghost use Rattle.vg_source.specs.Resolved.{Fresh};
ghost use Rattle.vg_rules.specs.Bodies.{breach};
ghost use Rattle.vg_rules.specs.Legal.{outside};
ghost use Rattle.vg_core.specs.HeldProgram.{code_of};
ghost use Rattle.vg_syntax.specs.Numbering.{count_nodes, numbered};
ghost use Rattle.vg_tree.specs.Held.{node_at};
ghost use Rattle.vg_types_views.specs.Judges.{Judges};
ghost use Rattle.vg_types_tables.specs.Views.{declarations_at, naming, code_view, row_view, scope_view};
ghost use Rattle.vg_types_tables.specs.Declares.{Declares, IsClass, IsKnown};
ghost use Rattle.vg_types_tables.specs.Promises.{AreDeclared};
ghost use Rattle.vg_types_bodies.specs.Initial.{above_name, super_breach, super_code, SuperRuns};

use crate::initial::outside;
use std::alloc::Global;
use vg_base::{Names, Refusal};
use vg_core::{Code, CoreType, Step};
use vg_tree::Node;
use vg_types_expressions::arguments;
use vg_types_simple::{broken, nothing};
use vg_types_tables::{Declared, Done, Locals, two};
use vg_types_views::Broken;

/// The call of the construction of the class above, where there is one, behind the parameters that are in scope. `id` is the number of the
/// constructor.
pub fn super_call(
    alloc: Global,
    names: &Names,
    root: &Node,
    declared: &Declared,
    above: Option<u16>,
    locals: &Locals,
    node: &Node,
    id: u32,
) -> Result<Done, Refusal<Broken>>
    requires declares { Declares names.now root.now declared.now }
    requires above { IfSome above (IsClass declared.now.tables) }
    requires scope { AreDeclared declared.now.tables locals.now }
    requires room { id + 1 + count_nodes (node_at names.now node.now) < 2 ^ 32 }
    ensures judged { Judges (λ j. code_view names.now declared.now j.code
        ≡ super_code (declarations_at names.now root.now) (above_name names.now declared.now above) (numbered (id + 1) (node_at names.now node.now))
        (scope_view names.now declared.now locals.now)) result
        (super_breach (declarations_at names.now root.now) (above_name names.now declared.now above) (numbered (id + 1) (node_at names.now node.now))
        (scope_view names.now declared.now locals.now) id) }
    ensures typed { IfOk result (λ j. SuperRuns declared.now.tables above locals.now.declared j.code) }
    ensures next { IfOk result (λ j. j.next ≡ id + 1 + count_nodes (node_at names.now node.now)) }
{
    match above {
        None => no_class_above(alloc, names, root, declared, locals, node, id),
        Some(class) => class_above(alloc, names, root, declared, class, locals, node, id),
    }
}

// Where there is no class above, nothing is called.
fn no_class_above(
    alloc: Global,
    names: &Names,
    root: &Node,
    declared: &Declared,
    locals: &Locals,
    node: &Node,
    id: u32,
) -> Result<Done, Refusal<Broken>>
    requires declares { Declares names.now root.now declared.now }
    requires scope { AreDeclared declared.now.tables locals.now }
    requires room { id + 1 + count_nodes (node_at names.now node.now) < 2 ^ 32 }
    ensures judged { Judges (λ j. code_of j.code ≡ Nothing) result
        (breach (declarations_at names.now root.now) outside (numbered (id + 1) (node_at names.now node.now)) Fresh (scope_view names.now
        declared.now locals.now)) }
    ensures next { IfOk result (λ j. j.next ≡ id + 1 + count_nodes (node_at names.now node.now)) }
{
    let argued = arguments(
        alloc,
        names,
        root,
        declared,
        outside(),
        locals,
        &[],
        node,
        id + 1,
    )?;
    Ok(Done {
        code: nothing(alloc),
        next: argued.next,
    })
}

// The call of the construction of this class.
fn class_above(
    alloc: Global,
    names: &Names,
    root: &Node,
    declared: &Declared,
    class: u16,
    locals: &Locals,
    node: &Node,
    id: u32,
) -> Result<Done, Refusal<Broken>>
    requires declares { Declares names.now root.now declared.now }
    requires above { IsClass declared.now.tables class }
    requires scope { AreDeclared declared.now.tables locals.now }
    requires room { id + 1 + count_nodes (node_at names.now node.now) < 2 ^ 32 }
    ensures judged { Judges (λ j. code_view names.now declared.now j.code
        ≡ super_code (declarations_at names.now root.now) (Some ((naming names.now declared.now).class class)) (numbered (id + 1) (node_at names.now
        node.now))
        (scope_view names.now declared.now locals.now)) result
        (super_breach (declarations_at names.now root.now) (Some ((naming names.now declared.now).class class)) (numbered (id + 1) (node_at names.now
        node.now))
        (scope_view names.now declared.now locals.now) id) }
    ensures typed { IfOk result (λ j. SuperRuns declared.now.tables (Some class) locals.now.declared j.code) }
    ensures next { IfOk result (λ j. j.next ≡ id + 1 + count_nodes (node_at names.now node.now)) }
{
    let argued = arguments(
        alloc,
        names,
        root,
        declared,
        outside(),
        locals,
        params_of(names, root, declared, class),
        node,
        id + 1,
    )?;
    if !argued.fits {
        return Err(broken(10, id));
    }
    let code = two(
        alloc,
        argued.code,
        Code::Do(Step::Super(class, argued.count)),
    )?;
    Ok(Done {
        code,
        next: argued.next,
    })
}

// The types of the parameters of a class's construction.
fn params_of<'a>(names: &Names, root: &Node, declared: &'a Declared, class: u16) -> &'a [CoreType]
    requires declares { Declares names.now root.now declared.now }
    requires there { IsClass declared.now.tables class }
    ensures params { (k : Class) → slice_get declared.now.tables.classes class ≡ Some k → result.now ≡ k.params }
    ensures view { row_view names.now declared.now result.now
        ≡ params_of_class (declarations_at names.now root.now) ((naming names.now declared.now).class class) }
    ensures known { AllByRecursion (IsKnown declared.now.tables) result.now }
{
    match declared.tables.classes.as_slice().get(usize::from(class)) {
        Some(found) => found.params.as_slice(),
        None => unreachable!(),
    }
}
