// Expressions: each node is judged from its children, and rows one node after another.
ghost use Rattle.std.specs.Prelude.{◌≡◌, ◌+◌, ◌-◌, ◌<◌, ◌^◌, ℕ, length, drop, None, IfOk};
ghost use Rattle.vg_syntax.specs.Numbering.{count_nodes, numbered};
ghost use Rattle.vg_syntax.specs.Reads.{spot};
ghost use Rattle.vg_tree.specs.Held.{node_at, row_at, text_at, type_at};
ghost use Rattle.vg_source.specs.Resolved.{Fresh, Onto};
ghost use Rattle.vg_rules.specs.Bodies.{breach, primary_breach};
ghost use Rattle.vg_core.specs.HeldProgram.{code_of};
ghost use Rattle.vg_types_views.specs.Judges.{Judges};
ghost use Rattle.vg_types_tables.specs.declared.judged.Head.TheVariants.{Nothing};
ghost use Rattle.vg_types_tables.specs.Views.{declarations_at, body_view, owner_view, scope_view, head_view};
ghost use Rattle.vg_types_tables.specs.Declares.{Declares};
ghost use Rattle.vg_types_tables.specs.Promises.{AreDeclared, IsBody, IsHead, Stands, Leaves, Puts, Leads, meant};
ghost use Rattle.vg_types_leaves.specs.Judgements.{HasValue, Behind, Whole};
ghost use Rattle.vg_types_expressions.specs.Nodes.{postfix_node, chain_node, index_node, call_node, part_node, unary_node};
ghost use Rattle.vg_types_expressions.specs.Nodes.{new_object_node, new_array_node};
ghost use Rattle.vg_types_expressions.specs.Links.{JudgesFront, Linking};

use crate::argued::arguments;
use crate::called::{called, made};
use crate::rows::{as_name, begins_with_member, row_of};
use std::alloc::Global;
use vg_base::{Name, Names, Place, Refusal};
use vg_core::{Code, CoreType, CoreValue, Step};
use vg_syntax::Kind;
use vg_tree::{Node, TypeTree};
use vg_types_calls::{array_made, element, making_params, params_behind, settle};
use vg_types_leaves::{
    character, member_behind, name_alone, name_in_front, number, put, string, this_object,
};
use vg_types_operators::{part, prefixed, type_part};
use vg_types_tables::{BodyKind, Declared, Head, Judged, Locals, Standing, chain, two};
use vg_types_views::{Broken, text_of};

/// A whole expression: its type and its code, or the first breach in it. `id` is the number of its node.
#[cycle(expression)]
pub fn expression(
    alloc: Global,
    names: &Names,
    root: &Node,
    declared: &Declared,
    body: BodyKind,
    locals: &Locals,
    node: &Node,
    id: u32,
) -> Result<Judged, Refusal<Broken>>
    requires declares { Declares names.now root.now declared.now }
    requires body { IsBody declared.now.tables body }
    requires scope { AreDeclared declared.now.tables locals.now }
    requires room { id + count_nodes (node_at names.now node.now) < 2 ^ 32 }
    ensures judged { Judges (Stands names.now root.now declared.now body locals.now (numbered id (node_at names.now node.now))) result
        (breach (declarations_at names.now root.now) (body_view names.now declared.now body) (numbered id (node_at names.now node.now)) Fresh
        (scope_view names.now declared.now locals.now)) }
    ensures typed { IfOk result (λ j. Puts declared.now.tables body locals.now (code_of j.code) j.type_) }
    ensures next { IfOk result (λ j. j.next ≡ id + count_nodes (node_at names.now node.now)) }
{
    let standing = primary(alloc, names, root, declared, body, locals, node, id)?;
    Ok(settle(alloc, names, root, declared, body, locals, standing)?)
}

// An expression as what suffixes may go on from.
#[cycle(expression)]
fn primary(
    alloc: Global,
    names: &Names,
    root: &Node,
    declared: &Declared,
    body: BodyKind,
    locals: &Locals,
    node: &Node,
    id: u32,
) -> Result<Standing, Refusal<Broken>>
    requires declares { Declares names.now root.now declared.now }
    requires body { IsBody declared.now.tables body }
    requires scope { AreDeclared declared.now.tables locals.now }
    requires room { id + count_nodes (node_at names.now node.now) < 2 ^ 32 }
    ensures judged { Behind names.now root.now declared.now body locals.now (numbered id (node_at names.now node.now)) Fresh result }
    ensures typed { IfOk result (λ j. Leads declared.now.tables body locals.now Nothing (code_of j.code) j.head) }
    ensures value { IfOk result (λ j. HasValue j.head) }
    ensures next { IfOk result (λ j. j.next ≡ id + count_nodes (node_at names.now node.now)) }
{
    match node {
        Node::Name(place, name) => name_alone(
            alloc, names, root, declared, body, locals, *place, *name, id,
        ),
        Node::Chain(place, first, parts) => operator_chain(
            alloc, names, root, declared, body, locals, *place, first, parts, id,
        ),
        Node::Postfix(place, first, suffixes) => postfix(
            alloc, names, root, declared, body, locals, *place, first, suffixes, id,
        ),
        _ => plain(alloc, names, root, declared, body, locals, node, id),
    }
}

// An expression that is no place.
#[cycle(expression)]
#[tactic(auto, using(crate::proofs::Wholes::this_no_place))]
pub(crate) fn plain(
    alloc: Global,
    names: &Names,
    root: &Node,
    declared: &Declared,
    body: BodyKind,
    locals: &Locals,
    node: &Node,
    id: u32,
) -> Result<Standing, Refusal<Broken>>
    requires declares { Declares names.now root.now declared.now }
    requires body { IsBody declared.now.tables body }
    requires scope { AreDeclared declared.now.tables locals.now }
    requires room { id + count_nodes (node_at names.now node.now) < 2 ^ 32 }
    ensures judged { Behind names.now root.now declared.now body locals.now (numbered id (node_at names.now node.now)) Fresh result }
    ensures typed { IfOk result (λ j. Leads declared.now.tables body locals.now Nothing (code_of j.code) j.head) }
    ensures place { IfOk result (λ j. (meant names.now root.now declared.now body locals.now (numbered id (node_at names.now node.now)) Fresh).store ≡ None) }
    ensures value { IfOk result (λ j. HasValue j.head) }
    ensures next { IfOk result (λ j. j.next ≡ id + count_nodes (node_at names.now node.now)) }
{
    match node {
        Node::Number(place, digits) => number(
            names, root, declared, body, locals, *place, *digits, id,
        ),
        Node::CharLiteral(place, spelled) => character(
            names, root, declared, body, locals, *place, *spelled, id,
        ),
        Node::StringLiteral(place, spelled) => string(
            names, root, declared, body, locals, *place, *spelled, id,
        ),
        Node::True(_) => Ok(put(
            declared,
            body,
            locals,
            CoreType::BoolType,
            CoreValue::Bool(true),
            id,
        )),
        Node::False(_) => Ok(put(
            declared,
            body,
            locals,
            CoreType::BoolType,
            CoreValue::Bool(false),
            id,
        )),
        Node::Null(_) => Ok(put(
            declared,
            body,
            locals,
            CoreType::NullType,
            CoreValue::Null,
            id,
        )),
        Node::This(place) => this_object(names, root, declared, body, locals, *place, id),
        Node::NewObject(place, name, args) => new_object(
            alloc, names, root, declared, body, locals, *place, *name, args, id,
        ),
        Node::NewArray(place, element, size) => new_array(
            alloc, names, root, declared, body, locals, *place, element, size, id,
        ),
        Node::Unary(place, operators, operand) => unary(
            alloc,
            names,
            root,
            declared,
            body,
            locals,
            *place,
            operators.as_slice(),
            operand,
            id,
        ),
        // No tree of a text has another node here.
        _ => Err(Refusal::NoMemory),
    }
}

// A new object: rule 25.
#[cycle(expression)]
fn new_object(
    alloc: Global,
    names: &Names,
    root: &Node,
    declared: &Declared,
    body: BodyKind,
    locals: &Locals,
    place: Place,
    name: Name,
    args: &Node,
    id: u32,
) -> Result<Standing, Refusal<Broken>>
    requires declares { Declares names.now root.now declared.now }
    requires body { IsBody declared.now.tables body }
    requires scope { AreDeclared declared.now.tables locals.now }
    requires room { id + 1 + count_nodes (node_at names.now args.now) < 2 ^ 32 }
    ensures judged { Behind names.now root.now declared.now body locals.now
        (new_object_node id (spot place) (text_at names.now name) (numbered (id + 1) (node_at names.now args.now))) Fresh result }
    ensures typed { IfOk result (λ j. Leads declared.now.tables body locals.now Nothing (code_of j.code) j.head) }
    ensures value { IfOk result (λ j. HasValue j.head) }
    ensures next { IfOk result (λ j. j.next ≡ id + 1 + count_nodes (node_at names.now args.now)) }
{
    let class = text_of(names, name);
    let wanted = making_params(alloc, declared, class)?;
    let params = wanted.as_slice();
    let argued = arguments(
        alloc,
        names,
        root,
        declared,
        body,
        locals,
        params,
        args,
        id + 1,
    )?;
    made(
        alloc, names, root, declared, body, locals, place, class, params, args, argued, id,
    )
}

// A new array: rules 8 and 25.
#[cycle(expression)]
fn new_array(
    alloc: Global,
    names: &Names,
    root: &Node,
    declared: &Declared,
    body: BodyKind,
    locals: &Locals,
    place: Place,
    element: &TypeTree,
    size: &Node,
    id: u32,
) -> Result<Standing, Refusal<Broken>>
    requires declares { Declares names.now root.now declared.now }
    requires body { IsBody declared.now.tables body }
    requires scope { AreDeclared declared.now.tables locals.now }
    requires room { id + 1 + count_nodes (node_at names.now size.now) < 2 ^ 32 }
    ensures judged { Behind names.now root.now declared.now body locals.now
        (new_array_node id (spot place) (type_at names.now element.now) (numbered (id + 1) (node_at names.now size.now))) Fresh result }
    ensures typed { IfOk result (λ j. Leads declared.now.tables body locals.now Nothing (code_of j.code) j.head) }
    ensures value { IfOk result (λ j. HasValue j.head) }
    ensures next { IfOk result (λ j. j.next ≡ id + 1 + count_nodes (node_at names.now size.now)) }
{
    let judged = expression(alloc, names, root, declared, body, locals, size, id + 1)?;
    array_made(
        alloc, names, root, declared, body, locals, place, element, judged, id,
    )
}

// An operand with operators before it: rule 18.
#[cycle(expression)]
fn unary(
    alloc: Global,
    names: &Names,
    root: &Node,
    declared: &Declared,
    body: BodyKind,
    locals: &Locals,
    place: Place,
    operators: &[Kind],
    operand: &Node,
    id: u32,
) -> Result<Standing, Refusal<Broken>>
    requires declares { Declares names.now root.now declared.now }
    requires body { IsBody declared.now.tables body }
    requires scope { AreDeclared declared.now.tables locals.now }
    requires room { id + 1 + count_nodes (node_at names.now operand.now) < 2 ^ 32 }
    ensures judged { Behind names.now root.now declared.now body locals.now
        (unary_node id (spot place) operators.now (numbered (id + 1) (node_at names.now operand.now))) Fresh result }
    ensures typed { IfOk result (λ j. Leads declared.now.tables body locals.now Nothing (code_of j.code) j.head) }
    ensures value { IfOk result (λ j. HasValue j.head) }
    ensures next { IfOk result (λ j. j.next ≡ id + 1 + count_nodes (node_at names.now operand.now)) }
{
    let judged = expression(alloc, names, root, declared, body, locals, operand, id + 1)?;
    prefixed(
        alloc, names, root, declared, body, locals, place, operators, judged, id,
    )
}

// An operand and a row of suffixes.
#[cycle(expression)]
fn postfix(
    alloc: Global,
    names: &Names,
    root: &Node,
    declared: &Declared,
    body: BodyKind,
    locals: &Locals,
    place: Place,
    first: &Node,
    suffixes: &Node,
    id: u32,
) -> Result<Standing, Refusal<Broken>>
    requires declares { Declares names.now root.now declared.now }
    requires body { IsBody declared.now.tables body }
    requires scope { AreDeclared declared.now.tables locals.now }
    requires room { id + 1 + count_nodes (node_at names.now first.now) + count_nodes (node_at names.now suffixes.now) < 2 ^ 32 }
    ensures judged { Behind names.now root.now declared.now body locals.now (postfix_node id (spot place) (numbered (id + 1) (node_at names.now first.now))
        (numbered (id + 1 + count_nodes (node_at names.now first.now)) (node_at names.now suffixes.now))) Fresh result }
    ensures typed { IfOk result (λ j. Leads declared.now.tables body locals.now Nothing (code_of j.code) j.head) }
    ensures value { IfOk result (λ j. HasValue j.head) }
    ensures next { IfOk result (λ j. j.next ≡ id + 1 + count_nodes (node_at names.now first.now) + count_nodes (node_at names.now suffixes.now)) }
{
    let front = operand(
        alloc,
        names,
        root,
        declared,
        body,
        locals,
        first,
        suffixes,
        id + 1,
    )?;
    let behind = links(
        alloc, names, root, declared, body, locals, front.head, suffixes, front.next,
    )?;
    let whole = settle(alloc, names, root, declared, body, locals, behind)?;
    let code = two(alloc, front.code, whole.code)?;
    Ok(Standing {
        head: Head::Value(whole.type_),
        code,
        next: whole.next,
    })
}

// An operand in front of suffixes: in front of a Member suffix a name may be that of a component or a device.
#[cycle(expression)]
pub(crate) fn operand(
    alloc: Global,
    names: &Names,
    root: &Node,
    declared: &Declared,
    body: BodyKind,
    locals: &Locals,
    first: &Node,
    suffixes: &Node,
    id: u32,
) -> Result<Standing, Refusal<Broken>>
    requires declares { Declares names.now root.now declared.now }
    requires body { IsBody declared.now.tables body }
    requires scope { AreDeclared declared.now.tables locals.now }
    requires room { id + count_nodes (node_at names.now first.now) < 2 ^ 32 }
    ensures judged { Judges (Leaves names.now root.now declared.now body locals.now (numbered id (node_at names.now first.now)) Fresh) result
        (primary_breach (declarations_at names.now root.now)
        (owner_view names.now declared.now body.owner) (scope_view names.now declared.now locals.now) (numbered id (node_at names.now first.now))
        (numbered (id + count_nodes (node_at names.now first.now)) (node_at names.now suffixes.now))
        (breach (declarations_at names.now root.now) (body_view names.now declared.now body) (numbered id (node_at names.now first.now)) Fresh
        (scope_view names.now declared.now locals.now))) }
    ensures typed { IfOk result (λ j. Leads declared.now.tables body locals.now Nothing (code_of j.code) j.head) }
    ensures next { IfOk result (λ j. j.next ≡ id + count_nodes (node_at names.now first.now)) }
{
    match as_name(first) {
        Some(named) => match row_of(suffixes) {
            Some(nodes) => {
                if begins_with_member(nodes) {
                    name_in_front(
                        alloc, names, root, declared, body, locals, named.0, named.1, id,
                    )
                } else {
                    name_alone(
                        alloc, names, root, declared, body, locals, named.0, named.1, id,
                    )
                }
            }
            // No tree of a text has suffixes that are no row.
            None => Err(Refusal::NoMemory),
        },
        None => primary(alloc, names, root, declared, body, locals, first, id),
    }
}

// A first operand and a row of operators with their operands.
#[cycle(expression)]
fn operator_chain(
    alloc: Global,
    names: &Names,
    root: &Node,
    declared: &Declared,
    body: BodyKind,
    locals: &Locals,
    place: Place,
    first: &Node,
    parts: &Node,
    id: u32,
) -> Result<Standing, Refusal<Broken>>
    requires declares { Declares names.now root.now declared.now }
    requires body { IsBody declared.now.tables body }
    requires scope { AreDeclared declared.now.tables locals.now }
    requires room { id + 1 + count_nodes (node_at names.now first.now) + count_nodes (node_at names.now parts.now) < 2 ^ 32 }
    ensures judged { Behind names.now root.now declared.now body locals.now (chain_node id (spot place) (numbered (id + 1) (node_at names.now first.now))
        (numbered (id + 1 + count_nodes (node_at names.now first.now)) (node_at names.now parts.now))) Fresh result }
    ensures typed { IfOk result (λ j. Leads declared.now.tables body locals.now Nothing (code_of j.code) j.head) }
    ensures value { IfOk result (λ j. HasValue j.head) }
    ensures next { IfOk result (λ j. j.next ≡ id + 1 + count_nodes (node_at names.now first.now) + count_nodes (node_at names.now parts.now)) }
{
    let front = expression(alloc, names, root, declared, body, locals, first, id + 1)?;
    let behind = links(
        alloc,
        names,
        root,
        declared,
        body,
        locals,
        Head::Value(front.type_),
        parts,
        front.next,
    )?;
    let code = two(alloc, front.code, behind.code)?;
    Ok(Standing {
        head: behind.head,
        code,
        next: behind.next,
    })
}

// A row of suffixes or parts behind what is in front of it.
#[cycle(expression)]
fn links(
    alloc: Global,
    names: &Names,
    root: &Node,
    declared: &Declared,
    body: BodyKind,
    locals: &Locals,
    head: Head,
    row: &Node,
    id: u32,
) -> Result<Standing, Refusal<Broken>>
    requires declares { Declares names.now root.now declared.now }
    requires body { IsBody declared.now.tables body }
    requires scope { AreDeclared declared.now.tables locals.now }
    requires head { IsHead names.now declared.now head }
    requires room { id + count_nodes (node_at names.now row.now) < 2 ^ 32 }
    ensures judged { Behind names.now root.now declared.now body locals.now (numbered id (node_at names.now row.now))
        (Onto (head_view names.now declared.now head)) result }
    ensures typed { IfOk result (λ j. Leads declared.now.tables body locals.now head (code_of j.code) j.head) }
    ensures value { IfOk result (λ j. HasValue j.head) }
    ensures next { IfOk result (λ j. j.next ≡ id + count_nodes (node_at names.now row.now)) }
{
    match row_of(row) {
        Some(nodes) => link_row(alloc, names, root, declared, body, locals, head, nodes, id),
        // No tree of a text has suffixes or parts that are no row.
        None => Err(Refusal::NoMemory),
    }
}

// Suffixes or parts, in order of the text.
#[cycle(expression)]
fn link_row(
    alloc: Global,
    names: &Names,
    root: &Node,
    declared: &Declared,
    body: BodyKind,
    locals: &Locals,
    head: Head,
    nodes: &[Node],
    id: u32,
) -> Result<Standing, Refusal<Broken>>
    requires declares { Declares names.now root.now declared.now }
    requires body { IsBody declared.now.tables body }
    requires scope { AreDeclared declared.now.tables locals.now }
    requires head { IsHead names.now declared.now head }
    requires room { id + count_nodes (row_at names.now nodes.now) < 2 ^ 32 }
    ensures judged { Behind names.now root.now declared.now body locals.now (numbered id (row_at names.now nodes.now))
        (Onto (head_view names.now declared.now head)) result }
    ensures typed { IfOk result (λ j. Leads declared.now.tables body locals.now head (code_of j.code) j.head) }
    ensures value { IfOk result (λ j. HasValue j.head) }
    ensures next { IfOk result (λ j. j.next ≡ id + count_nodes (row_at names.now nodes.now)) }
{
    if nodes.is_empty() {
        // No tree of a text has an operand with an empty row of suffixes or parts.
        return Err(Refusal::NoMemory);
    }
    let fronts = front_links(alloc, names, root, declared, body, locals, head, nodes, id)?;
    let last = link(
        alloc,
        names,
        root,
        declared,
        body,
        locals,
        fronts.head,
        &nodes[nodes.len() - 1],
        fronts.next,
    )?;
    let mut codes = fronts.codes;
    codes.push(last.code)?;
    Ok(Standing {
        head: last.head,
        code: chain(codes),
        next: last.next,
    })
}

// All suffixes or parts of a row but the last.
#[cycle(expression)]
pub(crate) fn front_links(
    alloc: Global,
    names: &Names,
    root: &Node,
    declared: &Declared,
    body: BodyKind,
    locals: &Locals,
    head: Head,
    nodes: &[Node],
    id: u32,
) -> Result<Fronts, Refusal<Broken>>
    requires declares { Declares names.now root.now declared.now }
    requires body { IsBody declared.now.tables body }
    requires scope { AreDeclared declared.now.tables locals.now }
    requires head { IsHead names.now declared.now head }
    requires some { 0 < length nodes.now }
    requires room { id + count_nodes (row_at names.now nodes.now) < 2 ^ 32 }
    ensures judged { JudgesFront (λ f. Linking names.now root.now declared.now body locals.now head id (row_at names.now nodes.now) f.codes.items f.head f.next
        (row_at names.now (drop (length nodes.now - 1) nodes.now))) result
        (breach (declarations_at names.now root.now) (body_view names.now declared.now body) (numbered id (row_at names.now nodes.now))
        (Onto (head_view names.now declared.now head)) (scope_view names.now declared.now locals.now)) }
{
    let mut codes = Vec::new(alloc);
    let mut so_far = head;
    let mut next = id;
    'each: for index in 0..nodes.len() - 1 {
        let one = link(
            alloc,
            names,
            root,
            declared,
            body,
            locals,
            so_far,
            &nodes[index],
            next,
        )?;
        codes.push(one.code)?;
        so_far = one.head;
        next = one.next;
    }
    Ok(Fronts {
        codes,
        head: so_far,
        next,
    })
}

// A suffix or a part behind what is in front of it.
#[cycle(expression)]
pub(crate) fn link(
    alloc: Global,
    names: &Names,
    root: &Node,
    declared: &Declared,
    body: BodyKind,
    locals: &Locals,
    head: Head,
    node: &Node,
    id: u32,
) -> Result<Standing, Refusal<Broken>>
    requires declares { Declares names.now root.now declared.now }
    requires body { IsBody declared.now.tables body }
    requires scope { AreDeclared declared.now.tables locals.now }
    requires head { IsHead names.now declared.now head }
    requires room { id + count_nodes (node_at names.now node.now) < 2 ^ 32 }
    ensures judged { Behind names.now root.now declared.now body locals.now (numbered id (node_at names.now node.now))
        (Onto (head_view names.now declared.now head)) result }
    ensures typed { IfOk result (λ j. Leads declared.now.tables body locals.now head (code_of j.code) j.head) }
    ensures value { IfOk result (λ j. HasValue j.head) }
    ensures next { IfOk result (λ j. j.next ≡ id + count_nodes (node_at names.now node.now)) }
{
    match node {
        Node::Member(place, name) => member_behind(
            alloc, names, root, declared, body, locals, head, *place, *name, id,
        ),
        Node::Index(place, index) => index_behind(
            alloc, names, root, declared, body, locals, head, *place, index, id,
        ),
        Node::Call(place, args) => call_behind(
            alloc, names, root, declared, body, locals, head, *place, args, id,
        ),
        Node::Part(place, op, operand) => part_behind(
            alloc, names, root, declared, body, locals, head, *place, *op, operand, id,
        ),
        Node::TypePart(place, op, type_) => type_part(
            names, root, declared, body, locals, head, *place, *op, type_, id,
        ),
        // No tree of a text has another node here.
        _ => Err(Refusal::NoMemory),
    }
}

// An Index suffix: rule 20.
#[cycle(expression)]
fn index_behind(
    alloc: Global,
    names: &Names,
    root: &Node,
    declared: &Declared,
    body: BodyKind,
    locals: &Locals,
    head: Head,
    place: Place,
    index: &Node,
    id: u32,
) -> Result<Standing, Refusal<Broken>>
    requires declares { Declares names.now root.now declared.now }
    requires body { IsBody declared.now.tables body }
    requires scope { AreDeclared declared.now.tables locals.now }
    requires head { IsHead names.now declared.now head }
    requires room { id + 1 + count_nodes (node_at names.now index.now) < 2 ^ 32 }
    ensures judged { Behind names.now root.now declared.now body locals.now (index_node id (spot place) (numbered (id + 1) (node_at names.now index.now)))
        (Onto (head_view names.now declared.now head)) result }
    ensures typed { IfOk result (λ j. Leads declared.now.tables body locals.now head (code_of j.code) j.head) }
    ensures value { IfOk result (λ j. HasValue j.head) }
    ensures next { IfOk result (λ j. j.next ≡ id + 1 + count_nodes (node_at names.now index.now)) }
{
    let judged = expression(alloc, names, root, declared, body, locals, index, id + 1)?;
    element(
        alloc, names, root, declared, body, locals, head, place, judged, id,
    )
}

// A Call suffix: rule 17.
#[cycle(expression)]
pub(crate) fn call_behind(
    alloc: Global,
    names: &Names,
    root: &Node,
    declared: &Declared,
    body: BodyKind,
    locals: &Locals,
    head: Head,
    place: Place,
    args: &Node,
    id: u32,
) -> Result<Standing, Refusal<Broken>>
    requires declares { Declares names.now root.now declared.now }
    requires body { IsBody declared.now.tables body }
    requires scope { AreDeclared declared.now.tables locals.now }
    requires head { IsHead names.now declared.now head }
    requires room { id + 1 + count_nodes (node_at names.now args.now) < 2 ^ 32 }
    ensures judged { Behind names.now root.now declared.now body locals.now (call_node id (spot place) (numbered (id + 1) (node_at names.now args.now)))
        (Onto (head_view names.now declared.now head)) result }
    ensures typed { IfOk result (λ j. Leads declared.now.tables body locals.now head (code_of j.code) j.head) }
    ensures value { IfOk result (λ j. HasValue j.head) }
    ensures next { IfOk result (λ j. j.next ≡ id + 1 + count_nodes (node_at names.now args.now)) }
{
    // A copy: the look-up below takes the head.
    let callee = head;
    let wanted = params_behind(alloc, declared, head)?;
    let params = wanted.as_slice();
    let argued = arguments(
        alloc,
        names,
        root,
        declared,
        body,
        locals,
        params,
        args,
        id + 1,
    )?;
    called(
        alloc, names, root, declared, body, locals, callee, place, params, args, argued, id,
    )
}

// A part with an operand: rule 18.
#[cycle(expression)]
pub(crate) fn part_behind(
    alloc: Global,
    names: &Names,
    root: &Node,
    declared: &Declared,
    body: BodyKind,
    locals: &Locals,
    head: Head,
    place: Place,
    op: Kind,
    operand: &Node,
    id: u32,
) -> Result<Standing, Refusal<Broken>>
    requires declares { Declares names.now root.now declared.now }
    requires body { IsBody declared.now.tables body }
    requires scope { AreDeclared declared.now.tables locals.now }
    requires head { IsHead names.now declared.now head }
    requires room { id + 1 + count_nodes (node_at names.now operand.now) < 2 ^ 32 }
    ensures judged { Behind names.now root.now declared.now body locals.now (part_node id (spot place) op (numbered (id + 1) (node_at names.now operand.now)))
        (Onto (head_view names.now declared.now head)) result }
    ensures typed { IfOk result (λ j. Leads declared.now.tables body locals.now head (code_of j.code) j.head) }
    ensures value { IfOk result (λ j. HasValue j.head) }
    ensures next { IfOk result (λ j. j.next ≡ id + 1 + count_nodes (node_at names.now operand.now)) }
{
    let judged = expression(alloc, names, root, declared, body, locals, operand, id + 1)?;
    part(
        alloc, names, root, declared, body, locals, head, place, op, judged, id,
    )
}

/// All links of a row but the last.
#[derive(Drop)]
pub(crate) struct Fronts {
    pub codes: Vec<Code>,
    pub head: Head,
    pub next: u32,
}
