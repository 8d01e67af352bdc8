// Initialisers of fields as code of their home.
ghost use Rattle.std.specs.Prelude.{◌≡◌, ◌+◌, ◌<◌, ◌^◌, ℕ, List, Some, slice_get, IfOk};
ghost use Rattle.vg_syntax.specs.Numbering.{count_nodes, numbered};
ghost use Rattle.vg_tree.specs.Held.{node_at};
ghost use Rattle.vg_core.specs.declared.types.CoreType.{CoreType};
ghost use Rattle.vg_core.specs.declared.program.Field.{Field};
ghost use Rattle.vg_core.specs.HeldProgram.{code_of};
ghost use Rattle.vg_types_views.specs.Judges.{Judges};
ghost use Rattle.vg_types_tables.specs.Views.{declarations_at, naming, type_view, code_view};
ghost use Rattle.vg_types_tables.specs.Declares.{Declares, IsKnown};
ghost use Rattle.vg_types_statements.specs.Arms.{RunsIn};
ghost use Rattle.vg_types_bodies.specs.Initial.{initial_breach};
ghost use Rattle.vg_types_bodies.specs.Fields.{making_kind, Has, field_code, stored_code};

use crate::initial::initial_value;
use std::alloc::Global;
use vg_base::{Names, NoMemory, Refusal};
use vg_core::{Code, CoreType, Owner, Step};
use vg_tree::Node;
use vg_types_simple::nothing;
use vg_types_tables::{Declared, three, two};
use vg_types_views::Broken;

/// The code of the initialiser of a field, which has this type and this home. `id` is the number of the field's declaration.
pub fn field_initialiser(
    alloc: Global,
    names: &Names,
    root: &Node,
    declared: &Declared,
    owner: Owner,
    field: u32,
    wanted: CoreType,
    node: &Node,
    id: u32,
) -> Result<Code, Refusal<Broken>>
    requires declares { Declares names.now root.now declared.now }
    requires known { IsKnown declared.now.tables wanted }
    requires field { (y : Field) × (slice_get declared.now.tables.fields field ≡ Some y) × (y.type_ ≡ wanted) × Has declared.now.tables owner y }
    requires room { id + 1 + count_nodes (node_at names.now node.now) < 2 ^ 32 }
    ensures judged { Judges (λ c. code_view names.now declared.now c
        ≡ field_code (declarations_at names.now root.now) owner id ((naming names.now declared.now).field field)
        (numbered (id + 1) (node_at names.now node.now))) result
        (initial_breach (declarations_at names.now root.now) (type_view names.now declared.now wanted) (numbered (id + 1) (node_at names.now node.now)) id) }
    ensures typed { IfOk result (λ c. (ts : List CoreType) → RunsIn declared.now.tables (making_kind owner) ts (code_of c)) }
{
    let found = match initial_value(alloc, names, root, declared, wanted, node, id) {
        Ok(found) => found,
        Err(fault) => return Err(fault),
    };
    match found {
        None => Ok(nothing(alloc)),
        Some(value) => Ok(stored(alloc, owner, field, value, id)?),
    }
}

// The code that sets a field to a value.
fn stored(alloc: Global, owner: Owner, field: u32, value: Code, id: u32) -> Result<Code, NoMemory>
    ensures { IfOk result (λ c. code_of c ≡ stored_code owner field (code_of value) id) }
{
    match owner {
        Owner::InClass(_) => three(
            alloc,
            Code::Do(Step::This),
            value,
            Code::Do(Step::SetField(id, field)),
        ),
        Owner::InComponent(_) => two(alloc, value, Code::Do(Step::SetComponentField(field))),
    }
}
