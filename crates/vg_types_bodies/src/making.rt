// Constructors.
ghost use Rattle.std.specs.Prelude.{◌≡◌, ◌+◌, ◌<◌, ◌^◌, Some, IfOk, IfSome};
ghost use Rattle.std.specs.List.{AllByRecursion};
ghost use Rattle.vg_meaning.specs.Code.{Then};
ghost use Rattle.vg_syntax.specs.Numbering.{count_nodes, numbered};
ghost use Rattle.vg_tree.specs.Held.{node_at};
ghost use Rattle.vg_source.specs.Declared.{row_of};
ghost use Rattle.vg_core.specs.HeldProgram.{code_of, code_row};
ghost use Rattle.vg_types_views.specs.Judges.{Judges};
ghost use Rattle.vg_types_tables.specs.Views.{row_view};
ghost use Rattle.vg_types_tables.specs.Declares.{Declares, IsClass, IsKnown};
ghost use Rattle.vg_types_tables.specs.Promises.{IsOwner};
ghost use Rattle.vg_types_bodies.specs.Parameters.{params_at};
ghost use Rattle.vg_types_bodies.specs.Makings.{constructor_breach, IsConstructed, ConstructedRuns};

use crate::above::super_call;
use crate::parameters::with_parameters;
use crate::running::run_body;
use std::alloc::Global;
use vg_base::{Names, NoMemory, Refusal};
use vg_core::{Body, Code, CoreType, Owner};
use vg_tree::{Node, Param};
use vg_types_tables::{BodyKind, Declared, row, three, two};
use vg_types_views::Broken;

/// A constructor: the call of the construction of the class above, and its block.
#[derive(Drop)]
pub struct Constructed {
    pub before: Code,
    pub body: Body,
}

/// A constructor whose parameters have these types in the tables. `id` is its number.
pub fn constructor(
    alloc: Global,
    names: &Names,
    root: &Node,
    declared: &Declared,
    owner: Owner,
    above: Option<u16>,
    types: &[CoreType],
    params: &[Param],
    args: &Node,
    block: &Node,
    id: u32,
) -> Result<Constructed, Refusal<Broken>>
    requires declares { Declares names.now root.now declared.now }
    requires owner { IsOwner declared.now.tables (Some owner) }
    requires above { IfSome above (IsClass declared.now.tables) }
    requires known { AllByRecursion (IsKnown declared.now.tables) types.now }
    requires same { row_view names.now declared.now types.now ≡ row_of (params_at names.now params.now) }
    requires room { id + 1 + count_nodes (node_at names.now args.now) + count_nodes (node_at names.now block.now) < 2 ^ 32 }
    ensures judged { Judges (IsConstructed names.now root.now declared.now owner above (params_at names.now params.now)
        (numbered (id + 1) (node_at names.now args.now)) (numbered (id + 1 + count_nodes (node_at names.now args.now)) (node_at names.now block.now))) result
        (constructor_breach names.now root.now declared.now owner above (params_at names.now params.now)
        (numbered (id + 1) (node_at names.now args.now)) (numbered (id + 1 + count_nodes (node_at names.now args.now)) (node_at names.now block.now)) id) }
    ensures typed { IfOk result (ConstructedRuns declared.now.tables owner above types.now) }
{
    let locals = with_parameters(alloc, names, root, declared, params)?;
    let called = match super_call(alloc, names, root, declared, above, &locals, args, id) {
        Ok(called) => called,
        Err(fault) => return Err(fault),
    };
    let kind = BodyKind {
        owner: Some(owner),
        result: CoreType::NoType,
        in_loop: false,
    };
    match run_body(
        alloc,
        names,
        root,
        declared,
        kind,
        locals,
        block,
        called.next,
    ) {
        Ok(body) => Ok(Constructed {
            before: called.code,
            body,
        }),
        Err(fault) => Err(fault),
    }
}

/// What is made with a constructor: the call of the construction of the class above, the initialisers, and then its block.
pub fn made(
    alloc: Global,
    constructed: Constructed,
    initialisers: Vec<Code>,
) -> Result<Body, NoMemory>
    ensures others { IfOk result (λ b. b.others ≡ constructed.body.others) }
    ensures code { IfOk result (λ b. code_of b.code
        ≡ Then (code_of constructed.before) (Then (code_row initialisers.items) (code_of constructed.body.code))) }
{
    let Constructed { before, body } = constructed;
    let Body { others, code } = body;
    Ok(Body {
        others,
        code: three(alloc, before, row(initialisers), code)?,
    })
}

/// What starts a component: the initialisers, and then the block of its constructor.
pub fn started(
    alloc: Global,
    constructed: Constructed,
    initialisers: Vec<Code>,
) -> Result<Body, NoMemory>
    ensures others { IfOk result (λ b. b.others ≡ constructed.body.others) }
    ensures code { IfOk result (λ b. code_of b.code ≡ Then (code_row initialisers.items) (code_of constructed.body.code)) }
{
    let Constructed { before: _, body } = constructed;
    let Body { others, code } = body;
    Ok(Body {
        others,
        code: two(alloc, row(initialisers), code)?,
    })
}
