// The passes over a text, one behind another.
ghost use Rattle.std.specs.Prelude.{◌≡◌, ◌<◌, ◌+◌, ◌^◌, true, [], None};
ghost use Rattle.vg_syntax.specs.Numbering.{count_nodes, numbered};
ghost use Rattle.vg_tree.specs.Held.{node_at};
ghost use Rattle.vg_tree_walks.specs.Whole.{tree_at, node_count};
ghost use Rattle.vg_source.specs.Program.{declarations_of};
ghost use Rattle.vg_rules.specs.Names.{programs};
ghost use Rattle.vg_rules.specs.Signatures.{signatures_breach};
ghost use Rattle.vg_core.specs.HeldProgram.{program_at};
ghost use Rattle.vg_types_views.specs.Judges.{Judges};
ghost use Rattle.vg_types_names.specs.Declarations.{are_declarations, names_part};
ghost use Rattle.vg_types_signatures.specs.Parts.{declared_part};
ghost use Rattle.vg_types_tables.specs.Views.{declarations_at};
ghost use Rattle.vg_types_declared.specs.Named.{Keeps};
ghost use Rattle.vg_types.specs.Checks.{IsTypedOf};
ghost use Rattle.vg_types.specs.Passes.{asked_part, members_part, members_breach, IsProgramFor, IsMovedFrom};

use std::alloc::Global;
use vg_base::{Names, Refusal, Row};
use vg_core::Program;
use vg_tree::Node;
use vg_tree_walks::Tree;
use vg_types_declare::declare;
use vg_types_entries::{ProgramEntries, entries};
use vg_types_inherited::inherited;
use vg_types_names::declared_names;
use vg_types_routines::{Bodies, bodies_of};
use vg_types_signatures::signatures;
use vg_types_tables::Declared;
use vg_types_views::Broken;

/// The typed program of a tree, or its first breach, asked in parts.
pub(crate) fn passed(alloc: Global, names: &Names, tree: &Tree) -> Result<Program, Refusal<Broken>>
    requires { node_count tree.now < 2 ^ 32 }
    ensures { Judges (λ p. IsTypedOf names.now (tree_at names.now tree.now) (program_at p)) result (asked_part (tree_at names.now tree.now)) }
{
    let declarations = declared_names(alloc, names, tree)?;
    signatures(alloc, names, tree, &declarations)?;
    text_program(alloc, names, &tree.root)
}

// The typed program of a text, or the first breach of the rules behind those on what each declaration says for itself.
fn text_program(alloc: Global, names: &Names, root: &Node) -> Result<Program, Refusal<Broken>>
    requires named { names_part (numbered 0 (node_at names.now root.now)) ≡ None }
    requires declared { are_declarations (declarations_of (numbered 0 (node_at names.now root.now))) ≡ true }
    requires kept { declared_part (numbered 0 (node_at names.now root.now)) ≡ None }
    requires room { count_nodes (node_at [] root.now) < 2 ^ 32 }
    ensures { Judges (λ p. IsTypedOf names.now (numbered 0 (node_at names.now root.now)) (program_at p)) result
        (members_part (numbered 0 (node_at names.now root.now))) }
{
    match root {
        Node::Text(_, declarations) => members_program(alloc, names, declarations),
        // A tree that no text has.
        _ => Err(Refusal::NoMemory),
    }
}

// The typed program of declarations, or the first breach of these rules in them.
fn members_program(alloc: Global, names: &Names, root: &Node) -> Result<Program, Refusal<Broken>>
    requires keeps { Keeps (declarations_at names.now root.now) }
    requires signatures { signatures_breach (declarations_at names.now root.now) (declarations_at names.now root.now) ≡ None }
    requires one { programs (declarations_at names.now root.now) ≡ 1 }
    requires room { 1 + count_nodes (node_at [] root.now) < 2 ^ 32 }
    ensures { Judges (λ p. IsProgramFor names.now (declarations_at names.now root.now) (program_at p)) result
        (members_breach (declarations_at names.now root.now)) }
{
    let declared = declare(alloc, names, root)?;
    match inherited(names, root, &declared) {
        Ok(()) => {}
        Err(fault) => return Err(fault),
    }
    let entered = match entries(alloc, names, root, &declared) {
        Ok(entered) => entered,
        Err(fault) => return Err(fault),
    };
    let bodies = match bodies_of(alloc, names, root, &declared) {
        Ok(bodies) => bodies,
        Err(fault) => return Err(fault),
    };
    Ok(program_of(declared, entered, bodies))
}

// The program of these tables, entries and bodies. It takes no memory.
fn program_of(declared: Declared, entered: ProgramEntries, bodies: Bodies) -> Program
    ensures { IsMovedFrom declared entered bodies result }
{
    let tables = declared.into_tables();
    let ProgramEntries { main, handlers } = entered;
    let Bodies {
        methods,
        makings,
        starts,
    } = bodies;
    Program {
        tables,
        methods: Row::from_vec(methods),
        makings: Row::from_vec(makings),
        starts: Row::from_vec(starts),
        main,
        handlers,
    }
}
