// Locals.
ghost use Rattle.std.specs.Prelude.{◌≡◌, ◌+◌, ◌<◌, ◌^◌, ◌++◌, ◌∷◌, [], length, is_some, IfOk, OnOk};
ghost use Rattle.vg_meaning.specs.Code.{Then, Do};
ghost use Rattle.vg_syntax.specs.Numbering.{count_nodes, numbered};
ghost use Rattle.vg_syntax.specs.Reads.{spot};
ghost use Rattle.vg_syntax.specs.Tree.{Nothing as NoNode};
ghost use Rattle.vg_tree.specs.Held.{text_at, type_at, node_at};
ghost use Rattle.vg_tree.specs.Nothing.{is_nothing};
ghost use Rattle.vg_source.specs.Declared.{written_type};
ghost use Rattle.vg_source.specs.Resolved.{find_local, declare};
ghost use Rattle.vg_core.specs.declared.step.Step.TheVariants.{SetLocal};
ghost use Rattle.vg_core.specs.HeldProgram.{code_of};
ghost use Rattle.vg_types_views.specs.Judges.{Judges};
ghost use Rattle.vg_types_tables.specs.Views.{declarations_at, type_view, scope_view};
ghost use Rattle.vg_types_tables.specs.Declares.{Declares, IsKnown};
ghost use Rattle.vg_types_tables.specs.Promises.{AreDeclared, IsBody, Does, Runs};
ghost use Rattle.vg_types_simple.specs.Nodes.{local_node};
ghost use Rattle.vg_types_simple.specs.Grows.{first_breach, Grows};
ghost use Rattle.vg_types_simple.specs.Asked.{declaration_breach};

use crate::fault::broken;
use crate::values::unwritten;
use std::alloc::Global;
use vg_base::{Name, Names, NoMemory, Place, Refusal};
use vg_core::{Code, CoreType, Step};
use vg_tree::nothing::is_nothing;
use vg_tree::{Node, TypeTree};
use vg_types_expressions::expression;
use vg_types_tables::{
    BodyKind, Declared, Done, Locals, find_local, fits, two, type_keeps, written,
};
use vg_types_views::{Broken, text_of};

/// The declaration of a local.
pub fn local_statement(
    alloc: Global,
    names: &Names,
    root: &Node,
    declared: &Declared,
    body: BodyKind,
    locals: &mut Locals,
    place: Place,
    name: Name,
    type_: &TypeTree,
    value: &Node,
    id: u32,
) -> Result<Done, Refusal<Broken>>
    requires declares { Declares names.now root.now declared.now }
    requires body { IsBody declared.now.tables body }
    requires scope { AreDeclared declared.now.tables locals.old }
    requires room { id + 1 + count_nodes (node_at names.now value.now) < 2 ^ 32 }
    ensures judged { Judges (Does names.now root.now declared.now body locals.old
        (local_node id (spot place) (text_at names.now name) (type_at names.now type_.now) (numbered (id + 1) (node_at names.now value.now))) locals.new)
        result
        (first_breach names.now root.now declared.now body locals.old
        (local_node id (spot place) (text_at names.now name) (type_at names.now type_.now) (numbered (id + 1) (node_at names.now value.now)))) }
    ensures typed { IfOk result (λ j. Runs declared.now.tables body locals.new (code_of j.code)) }
    ensures grows { OnOk result (Grows declared.now.tables locals.old locals.new) }
    ensures next { IfOk result (λ j. j.next ≡ id + 1 + count_nodes (node_at names.now value.now)) }
{
    if is_nothing(value) {
        return local_default(
            alloc, names, root, declared, body, locals, place, name, type_, id,
        );
    }
    let judged = expression(alloc, names, root, declared, body, locals, value, id + 1)?;
    let wanted = match may_declare(names, root, declared, locals, name, type_, id) {
        Ok(wanted) => wanted,
        Err(fault) => return Err(fault),
    };
    if !fits(names, root, declared, judged.type_, wanted) {
        return Err(broken(21, id));
    }
    let code = declared_as(alloc, names, declared, locals, name, wanted, judged.code)?;
    Ok(Done {
        code,
        next: judged.next,
    })
}

// A local without a value: it has the default of its type.
fn local_default(
    alloc: Global,
    names: &Names,
    root: &Node,
    declared: &Declared,
    body: BodyKind,
    locals: &mut Locals,
    place: Place,
    name: Name,
    type_: &TypeTree,
    id: u32,
) -> Result<Done, Refusal<Broken>>
    requires declares { Declares names.now root.now declared.now }
    requires scope { AreDeclared declared.now.tables locals.old }
    requires room { id + 1 < 2 ^ 32 }
    ensures judged { Judges (Does names.now root.now declared.now body locals.old
        (local_node id (spot place) (text_at names.now name) (type_at names.now type_.now) NoNode) locals.new) result
        (first_breach names.now root.now declared.now body locals.old
        (local_node id (spot place) (text_at names.now name) (type_at names.now type_.now) NoNode)) }
    ensures typed { IfOk result (λ j. Runs declared.now.tables body locals.new (code_of j.code)) }
    ensures grows { OnOk result (Grows declared.now.tables locals.old locals.new) }
    ensures next { IfOk result (λ j. j.next ≡ id + 1) }
{
    let wanted = match may_declare(names, root, declared, locals, name, type_, id) {
        Ok(wanted) => wanted,
        Err(fault) => return Err(fault),
    };
    let value = unwritten(alloc, wanted)?;
    let code = declared_as(alloc, names, declared, locals, name, wanted, value)?;
    Ok(Done { code, next: id + 1 })
}

// The type of a local, where its name is new in scope and its type is written rightly.
fn may_declare(
    names: &Names,
    root: &Node,
    declared: &Declared,
    locals: &Locals,
    name: Name,
    type_: &TypeTree,
    id: u32,
) -> Result<CoreType, Refusal<Broken>>
    requires declares { Declares names.now root.now declared.now }
    ensures { Judges (λ t. (type_view names.now declared.now t ≡ written_type (type_at names.now type_.now)) × IsKnown declared.now.tables t) result
        (declaration_breach (declarations_at names.now root.now) id (text_at names.now name) (type_at names.now type_.now)
        (scope_view names.now declared.now locals.now)) }
{
    if is_in_scope(names, declared, locals, name) {
        return Err(broken(11, id));
    }
    if !type_keeps(names, root, declared, type_) {
        return Err(broken(8, id));
    }
    match written(names, root, declared, type_) {
        Some(found) => Ok(found),
        // All types of the text are in the tables.
        None => Err(Refusal::NoMemory),
    }
}

// Whether a parameter or local in scope has this name.
fn is_in_scope(names: &Names, declared: &Declared, locals: &Locals, name: Name) -> bool
    ensures { result ≡ is_some (find_local (scope_view names.now declared.now locals.now).names (text_at names.now name)) }
{
    match find_local(names, declared, locals, text_of(names, name)) {
        Some(_) => true,
        None => false,
    }
}

// The code that sets a new local to a value.
fn declared_as(
    alloc: Global,
    names: &Names,
    declared: &Declared,
    locals: &mut Locals,
    name: Name,
    type_: CoreType,
    value: Code,
) -> Result<Code, NoMemory>
    requires scope { AreDeclared declared.now.tables locals.old }
    requires known { IsKnown declared.now.tables type_ }
    ensures code { IfOk result (λ c. code_of c ≡ Then (code_of value) (Do (SetLocal (length locals.old.declared) type_))) }
    ensures scope { OnOk result (scope_view names.now declared.now locals.new
        ≡ declare (text_at names.now name) (type_view names.now declared.now type_) (scope_view names.now declared.now locals.old)) }
    ensures types { OnOk result (locals.new.declared ≡ locals.old.declared ++ type_ ∷ []) }
    ensures grows { OnOk result (Grows declared.now.tables locals.old locals.new) }
{
    let count = locals.declared.len();
    // A body has at most 60 parameters and locals, so this cannot come.
    if count > 255 {
        return Err(NoMemory);
    }
    let code = two(alloc, value, Code::Do(Step::SetLocal(count as u8, type_)))?;
    locals.declare(names, declared, name, type_)?;
    Ok(code)
}
