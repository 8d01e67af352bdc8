// The typed program of a tree.
ghost use Rattle.std.specs.Prelude.{◌<◌, ◌^◌};
ghost use Rattle.vg_rules.specs.Legal.{breach_of};
ghost use Rattle.vg_core.specs.HeldProgram.{program_at};
ghost use Rattle.vg_tree_walks.specs.Whole.{tree_at, node_count};
ghost use Rattle.vg_types_views.specs.Judges.{Judges};
ghost use Rattle.vg_types.specs.Checks.{Checks, IsTypedOf};

use crate::passes::passed;
use std::alloc::Global;
use vg_base::{Names, Refusal};
use vg_core::Program;
use vg_tree_walks::Tree;
use vg_types_counts::{TooMany, too_many};
use vg_types_views::Broken;

/// Why there is no program of a tree.
#[derive(Clone, Copy, Debug, PartialEq, Eq)]
pub enum TypeFault {
    /// There is too much of something.
    TooMany(TooMany),
    /// A rule is broken, for the first time at this node.
    Broken(Broken),
}

/// The typed program of a tree; or what the tree has too many of, or the first breach of its rules.
///
/// Each pass goes over the tree once and finds what a name stands for in maps, so the time is about linear. A tree that no text has is answered by want of
/// memory.
pub fn check(alloc: Global, names: &Names, tree: &Tree) -> Result<Program, Refusal<TypeFault>>
    requires { node_count tree.now < 2 ^ 32 }
    ensures { Checks names.now (tree_at names.now tree.now) result }
{
    if let Some(many) = too_many(tree) {
        return Err(Refusal::Fault(TypeFault::TooMany(many)));
    }
    match judged(alloc, names, tree) {
        Ok(program) => Ok(program),
        Err(Refusal::Fault(broken)) => Err(Refusal::Fault(TypeFault::Broken(broken))),
        Err(Refusal::NoMemory) => Err(Refusal::NoMemory),
    }
}

// The typed program of a tree, or the first breach of its rules.
fn judged(alloc: Global, names: &Names, tree: &Tree) -> Result<Program, Refusal<Broken>>
    requires { node_count tree.now < 2 ^ 32 }
    ensures { Judges (λ p. IsTypedOf names.now (tree_at names.now tree.now) (program_at p)) result (breach_of (tree_at names.now tree.now)) }
{
    passed(alloc, names, tree)
}
