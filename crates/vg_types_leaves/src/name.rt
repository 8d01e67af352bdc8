// Names.
ghost use Rattle.std.specs.Prelude.{◌≡◌, ◌+◌, ◌<◌, ◌^◌, None, IfOk, IfSome};
ghost use Rattle.vg_syntax.specs.Reads.{spot};
ghost use Rattle.vg_tree.specs.Held.{text_at};
ghost use Rattle.vg_source.specs.Resolved.{Fresh, find_local};
ghost use Rattle.vg_syntax.specs.Numbering.{with_id};
ghost use Rattle.vg_rules.specs.Breach.{asks};
ghost use Rattle.vg_rules.specs.Bodies.{breach, front_keeps};
ghost use Rattle.vg_core.specs.HeldProgram.{code_of};
ghost use Rattle.vg_types_views.specs.Judges.{Judges};
ghost use Rattle.vg_types_tables.specs.declared.judged.Head.TheVariants.{Nothing};
ghost use Rattle.vg_types_tables.specs.Views.{declarations_at, owner_view, body_view, scope_view};
ghost use Rattle.vg_types_tables.specs.Declares.{Declares};
ghost use Rattle.vg_types_tables.specs.Promises.{AreDeclared, IsBody, Leads, Leaves, Aims, Stores};
ghost use Rattle.vg_types_leaves.specs.Nodes.{name_node};
ghost use Rattle.vg_types_leaves.specs.Judgements.{Behind, HasValue, Shows, AimsAt};
ghost use Rattle.vg_types_leaves.specs.Named.{IsNamed, IsFront, with_this};
ghost use Rattle.vg_types_leaves.specs.Reached.{IsReached, reached_at};

use crate::member::{its_member, object_member};
use crate::reached::{Reached, no_code};
use std::alloc::Global;
use vg_base::{Name, Names, NoMemory, NodeId, Place, Refusal};
use vg_core::{Code, Owner, Step};
use vg_tree::Node;
use vg_types_tables::{
    Aimed, BodyKind, Declared, Head, Locals, Standing, Storing, component_of, find_local,
    is_device, two,
};
use vg_types_views::{Broken, text_of};

/// What a name stands for: what is reached under it, and whether that is a member of `this`.
#[derive(Clone, Copy, Debug, PartialEq, Eq)]
pub struct Named {
    pub of_this: bool,
    pub reached: Reached,
}

/// What is reached under a name that is no component and no device: a parameter or local in scope, else a member that is seen.
pub(crate) fn find_named(
    names: &Names,
    root: &Node,
    declared: &Declared,
    body: BodyKind,
    locals: &Locals,
    text: &str,
    id: u32,
) -> Option<Named>
    requires declares { Declares names.now root.now declared.now }
    requires body { IsBody declared.now.tables body }
    requires scope { AreDeclared declared.now.tables locals.now }
    ensures { IsNamed names.now root.now declared.now body locals.now id text.now result }
{
    match find_local(names, declared, locals, text) {
        Some(local) => Some(Named {
            of_this: false,
            reached: Reached::Local(local.number, local.type_),
        }),
        None => outer_named(names, root, declared, body, locals, text, id),
    }
}

// A member that is seen.
fn outer_named(
    names: &Names,
    root: &Node,
    declared: &Declared,
    body: BodyKind,
    locals: &Locals,
    text: &str,
    id: u32,
) -> Option<Named>
    requires declares { Declares names.now root.now declared.now }
    requires body { IsBody declared.now.tables body }
    requires none { find_local (scope_view names.now declared.now locals.now).names text.now ≡ None }
    ensures { IsNamed names.now root.now declared.now body locals.now id text.now result }
{
    match body.owner {
        Some(Owner::InClass(class)) => {
            match object_member(names, root, declared, locals, class, text, id) {
                Some(reached) => Some(Named {
                    of_this: true,
                    reached,
                }),
                None => None,
            }
        }
        Some(Owner::InComponent(component)) => {
            match its_member(names, root, declared, locals, component, text, id) {
                Some(reached) => Some(Named {
                    of_this: false,
                    reached,
                }),
                None => None,
            }
        }
        None => None,
    }
}

// What a name leaves.
fn standing(
    alloc: Global,
    names: &Names,
    declared: &Declared,
    body: BodyKind,
    locals: &Locals,
    named: Named,
    id: u32,
) -> Result<Standing, NoMemory>
    requires reached { IsReached names.now declared.now locals.now named.reached }
    requires front { IsFront body named }
    requires room { id + 1 < 2 ^ 32 }
    ensures shows { IfOk result (Shows names.now declared.now locals.now (with_this named.of_this
        (reached_at names.now declared.now id (scope_view names.now declared.now locals.now) named.reached))) }
    ensures typed { IfOk result (λ j. Leads declared.now.tables body locals.now Nothing (code_of j.code) j.head) }
    ensures value { IfOk result (λ j. HasValue j.head) }
    ensures next { IfOk result (λ j. j.next ≡ id + 1) }
{
    let read = named.reached.code(alloc, id);
    let head = named.reached.head(id);
    if named.of_this {
        let code = two(alloc, Code::Do(Step::This), read)?;
        Ok(Standing {
            head,
            code,
            next: id + 1,
        })
    } else {
        Ok(Standing {
            head,
            code: read,
            next: id + 1,
        })
    }
}

/// A name: rule 14.
pub fn name_alone(
    alloc: Global,
    names: &Names,
    root: &Node,
    declared: &Declared,
    body: BodyKind,
    locals: &Locals,
    place: Place,
    name: Name,
    id: u32,
) -> Result<Standing, Refusal<Broken>>
    requires declares { Declares names.now root.now declared.now }
    requires body { IsBody declared.now.tables body }
    requires scope { AreDeclared declared.now.tables locals.now }
    requires room { id + 1 < 2 ^ 32 }
    ensures judged { Behind names.now root.now declared.now body locals.now (name_node id (spot place) (text_at names.now name)) Fresh result }
    ensures typed { IfOk result (λ j. Leads declared.now.tables body locals.now Nothing (code_of j.code) j.head) }
    ensures value { IfOk result (λ j. HasValue j.head) }
    ensures next { IfOk result (λ j. j.next ≡ id + 1) }
{
    match find_named(
        names,
        root,
        declared,
        body,
        locals,
        text_of(names, name),
        id,
    ) {
        Some(named) => Ok(standing(alloc, names, declared, body, locals, named, id)?),
        None => Err(Refusal::Fault(Broken {
            rule: 14,
            node: NodeId(id),
        })),
    }
}

/// A name in front of a Member suffix, which may be a component or a device, too: rule 14.
pub fn name_in_front(
    alloc: Global,
    names: &Names,
    root: &Node,
    declared: &Declared,
    body: BodyKind,
    locals: &Locals,
    place: Place,
    name: Name,
    id: u32,
) -> Result<Standing, Refusal<Broken>>
    requires declares { Declares names.now root.now declared.now }
    requires body { IsBody declared.now.tables body }
    requires scope { AreDeclared declared.now.tables locals.now }
    requires room { id + 1 < 2 ^ 32 }
    ensures judged { Judges (Leaves names.now root.now declared.now body locals.now (name_node id (spot place) (text_at names.now name)) Fresh) result
        (asks (front_keeps (declarations_at names.now root.now) (owner_view names.now declared.now body.owner) (text_at names.now name)
        (scope_view names.now declared.now locals.now)) 14 (with_id id (spot place))) }
    ensures typed { IfOk result (λ j. Leads declared.now.tables body locals.now Nothing (code_of j.code) j.head) }
    ensures next { IfOk result (λ j. j.next ≡ id + 1) }
{
    let text = text_of(names, name);
    match find_named(names, root, declared, body, locals, text, id) {
        Some(named) => Ok(standing(alloc, names, declared, body, locals, named, id)?),
        None => match component_of(declared, text) {
            Some(component) => Ok(Standing {
                head: Head::Component(component),
                code: no_code(alloc),
                next: id + 1,
            }),
            None => {
                if is_device(declared, text) {
                    Ok(Standing {
                        head: Head::Device(name),
                        code: no_code(alloc),
                        next: id + 1,
                    })
                } else {
                    Err(Refusal::Fault(Broken {
                        rule: 14,
                        node: NodeId(id),
                    }))
                }
            }
        },
    }
}

/// A name as the target of an assignment.
pub fn name_target(
    alloc: Global,
    names: &Names,
    root: &Node,
    declared: &Declared,
    body: BodyKind,
    locals: &Locals,
    place: Place,
    name: Name,
    id: u32,
) -> Result<Aimed, Refusal<Broken>>
    requires declares { Declares names.now root.now declared.now }
    requires body { IsBody declared.now.tables body }
    requires scope { AreDeclared declared.now.tables locals.now }
    requires room { id + 1 < 2 ^ 32 }
    ensures judged { Judges (Aims names.now root.now declared.now body locals.now (name_node id (spot place) (text_at names.now name)) Fresh) result
        (breach (declarations_at names.now root.now) (body_view names.now declared.now body) (name_node id (spot place) (text_at names.now name)) Fresh
        (scope_view names.now declared.now locals.now)) }
    ensures typed { IfOk result (λ j. IfSome j.place (Stores declared.now.tables body locals.now Nothing)) }
    ensures next { IfOk result (λ j. j.next ≡ id + 1) }
{
    match find_named(
        names,
        root,
        declared,
        body,
        locals,
        text_of(names, name),
        id,
    ) {
        Some(named) => {
            let found = named_place(alloc, names, declared, body, locals, named, id)?;
            Ok(Aimed {
                place: found,
                next: id + 1,
            })
        }
        None => Err(Refusal::Fault(Broken {
            rule: 14,
            node: NodeId(id),
        })),
    }
}

// The place that a name is.
fn named_place(
    alloc: Global,
    names: &Names,
    declared: &Declared,
    body: BodyKind,
    locals: &Locals,
    named: Named,
    id: u32,
) -> Result<Option<Storing>, NoMemory>
    requires reached { IsReached names.now declared.now locals.now named.reached }
    requires front { IsFront body named }
    ensures shows { IfOk result (AimsAt names.now declared.now (with_this named.of_this
        (reached_at names.now declared.now id (scope_view names.now declared.now locals.now) named.reached))) }
    ensures typed { IfOk result (λ o. IfSome o (Stores declared.now.tables body locals.now Nothing)) }
{
    match named.reached.place(alloc, id) {
        Some(place) => {
            if named.of_this {
                let aims = two(alloc, Code::Do(Step::This), place.aims)?;
                Ok(Some(Storing {
                    aims,
                    store: place.store,
                    type_: place.type_,
                }))
            } else {
                Ok(Some(place))
            }
        }
        None => Ok(None),
    }
}
