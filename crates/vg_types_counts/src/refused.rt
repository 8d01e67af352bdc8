// What a text has too many of.
ghost use Rattle.std.specs.Prelude.{◌≡◌, ◌<◌, ◌+◌, ◌^◌, ℕ, List, [], IfSome, is_some};
ghost use Rattle.std.specs.Option.{option_map};
ghost use Rattle.vg_syntax.specs.Numbering.{count_nodes, numbered};
ghost use Rattle.vg_tree.specs.Held.{node_at};
ghost use Rattle.vg_tree_walks.specs.Whole.{tree_at, node_count};
ghost use Rattle.vg_rules.specs.Limits.{limit_of};
ghost use Rattle.vg_rules.specs.Refusal.{too_many, too_many_at};
ghost use Rattle.vg_source.specs.Declared.{or_else};
ghost use Rattle.vg_source.specs.Program.{declarations_of};
ghost use Rattle.vg_types_counts.specs.Answer.{refused_view, answer};
ghost use Rattle.vg_types_counts.specs.Tallies.{is_text};

use crate::tally::{Tally, first_tally, tally_declarations};
use vg_base::NodeId;
use vg_rules::what::What;
use vg_tree::Node;
use vg_tree_walks::Tree;

/// The classes and components that a text may have.
pub const CLASS_LIMIT: u32 = 200;

/// The methods and constructors that a text may have.
pub const METHOD_LIMIT: u32 = 2000;

/// The parameters and locals that a method or constructor may have.
pub const LOCAL_LIMIT: u32 = 60;

/// The height that a method, constructor or field initialiser may have.
pub const HEIGHT_LIMIT: u32 = 48;

/// Too many of something: the limit, and the declaration that passes it.
#[derive(Clone, Copy, Debug, PartialEq, Eq)]
pub struct TooMany {
    pub what: What,
    pub limit: u32,
    pub node: NodeId,
}

/// What a text has too many of, where it has. It takes no memory, and time in proportion to the tree.
pub fn too_many(tree: &Tree) -> Option<TooMany>
    requires { node_count tree.now < 2 ^ 32 }
    ensures { (texts : List (List ℕ)) → option_map refused_view result ≡ too_many (tree_at texts tree.now) }
{
    match declarations_of(&tree.root) {
        Some(declarations) => answer(tally_declarations(first_tally(), declarations)),
        None => None,
    }
}

/// How many of this there may be.
pub fn limit_of(what: What) -> u32
    ensures { result ≡ limit_of what }
{
    match what {
        What::Classes => CLASS_LIMIT,
        What::Methods => METHOD_LIMIT,
        What::Locals => LOCAL_LIMIT,
        What::Height => HEIGHT_LIMIT,
    }
}

// The declarations of a text.
fn declarations_of(root: &Node) -> Option<&Node>
    ensures some { is_some result ≡ is_text root.now }
    ensures declarations { IfSome result (λ row. (texts : List (List ℕ))
        → declarations_of (numbered 0 (node_at texts root.now)) ≡ numbered 1 (node_at texts row.now)) }
    ensures count { IfSome result (λ row. 1 + count_nodes (node_at [] row.now) ≡ count_nodes (node_at [] root.now)) }
{
    match root {
        Node::Text(_, declarations) => Some(declarations),
        _ => None,
    }
}

// The answer behind all declarations.
fn answer(tally: Tally) -> Option<TooMany>
    ensures { option_map refused_view result ≡ answer tally }
{
    first_of(
        past(What::Classes, tally.past_classes),
        first_of(
            past(What::Methods, tally.past_methods),
            first_of(
                past(What::Locals, tally.past_locals),
                past(What::Height, tally.past_height),
            ),
        ),
    )
}

// Too many of this, where a node is past its limit.
fn past(what: What, node: Option<u32>) -> Option<TooMany>
    ensures { option_map refused_view result ≡ too_many_at what node }
{
    match node {
        Some(node) => Some(TooMany {
            what,
            limit: limit_of(what),
            node: NodeId(node),
        }),
        None => None,
    }
}

// The first of two that is there.
fn first_of(first: Option<TooMany>, second: Option<TooMany>) -> Option<TooMany>
    ensures { option_map refused_view result ≡ or_else (option_map refused_view first) (option_map refused_view second) }
{
    match first {
        Some(first) => Some(first),
        None => second,
    }
}
