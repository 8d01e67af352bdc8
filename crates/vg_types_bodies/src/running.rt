// Statements as bodies.
ghost use Rattle.std.specs.Prelude.{◌≡◌, ◌≤◌, ◌+◌, ◌<◌, ◌^◌, ◌++◌, take, drop, length, IfOk};
ghost use Rattle.vg_syntax.specs.Numbering.{count_nodes, numbered};
ghost use Rattle.vg_tree.specs.Held.{node_at};
ghost use Rattle.vg_source.specs.Resolved.{Fresh};
ghost use Rattle.vg_core.specs.HeldProgram.{code_of};
ghost use Rattle.vg_types_views.specs.Judges.{Judges};
ghost use Rattle.vg_types_tables.specs.Declares.{Declares};
ghost use Rattle.vg_types_tables.specs.Promises.{AreDeclared, IsBody, meant};
ghost use Rattle.vg_types_simple.specs.Grows.{first_breach};
ghost use Rattle.vg_types_statements.specs.Arms.{RunsIn};
ghost use Rattle.vg_types_bodies.specs.Bodies.{IsBodyOf};

use std::alloc::Global;
use vg_base::{Names, NoMemory, Refusal, Row};
use vg_core::{Body, CoreType};
use vg_tree::Node;
use vg_types_statements::statement;
use vg_types_tables::{BodyKind, Declared, Locals};
use vg_types_views::Broken;

/// A statement as a body, behind the parameters that are in scope. `id` is the number of its node.
pub fn run_body(
    alloc: Global,
    names: &Names,
    root: &Node,
    declared: &Declared,
    body: BodyKind,
    params: Locals,
    node: &Node,
    id: u32,
) -> Result<Body, Refusal<Broken>>
    requires declares { Declares names.now root.now declared.now }
    requires body { IsBody declared.now.tables body }
    requires scope { AreDeclared declared.now.tables params }
    requires room { id + count_nodes (node_at names.now node.now) < 2 ^ 32 }
    ensures judged { Judges
        (IsBodyOf names.now declared.now (length params.declared)
        (meant names.now root.now declared.now body params (numbered id (node_at names.now node.now)) Fresh)) result
        (first_breach names.now root.now declared.now body params (numbered id (node_at names.now node.now))) }
    ensures typed { IfOk result (λ b. RunsIn declared.now.tables body (params.declared ++ b.others) (code_of b.code)) }
{
    let count = params.declared.len();
    let mut locals = params;
    let done = statement(alloc, names, root, declared, body, &mut locals, node, id)?;
    let others = behind(alloc, locals.declared.as_slice(), count)?;
    Ok(Body {
        others,
        code: done.code,
    })
}

// The types behind the first so many.
fn behind(alloc: Global, types: &[CoreType], count: usize) -> Result<Row<CoreType>, NoMemory>
    requires { count ≤ length types.now }
    ensures front { IfOk result (λ others. types.now ≡ take count types.now ++ others) }
    ensures rest { IfOk result (λ others. others ≡ drop count types.now) }
{
    Ok(Row::from_vec(Vec::from_slice(alloc, &types[count..])?))
}
