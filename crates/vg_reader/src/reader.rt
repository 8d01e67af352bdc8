// From the bytes of a text to its tree.
ghost use Rattle.std.specs.Prelude.{◌≡◌, ◌≤◌, ◌<◌, ◌^◌, ◌+◌, ℕ, List, [], ◌∷◌, IfOk, length, map};
ghost use Rattle.vg_base.specs.Limits.{text_limit};
ghost use Rattle.vg_syntax.specs.Reads.{tree_in};
ghost use Rattle.vg_tree_walks.specs.Whole.{tree_at, node_count};
ghost use Rattle.vg_tree.specs.HeldMade.{value_at};
ghost use Rattle.vg_reader.specs.Answers.{ReadsAs};
ghost use Rattle.vg_reader.specs.Grown.{Grown};

use crate::builder::build;
use crate::derivation::derive_text;
use crate::fault::ReadFault;
use std::alloc::Global;
use vg_base::{Names, Refusal};
use vg_tree::contents::node_in;
use vg_tree::{Node, Value};
use vg_tree_walks::Tree;

/// The tree of a text of at most 262,144 bytes, or where the bytes cease to be a text of the language with at most 64 open brackets at each place.
///
/// Each spelling of a token gets a name in `names`, which may hold fewer than 4,000,000,000 before, and so does the empty text. Those that it held stay,
/// whatever
/// the answer, at most one comes for each byte beside the empty text's, and the tree stays the same however many come later. Its time and its memory are
/// linear in the text, and it does not recurse.
pub fn read(alloc: Global, bytes: &[u8], names: &mut Names) -> Result<Tree, Refusal<ReadFault>>
    requires short { length bytes.now ≤ text_limit }
    requires room { length names.old < 4000000000 }
    ensures answer { ReadsAs bytes.now names.new result }
    ensures names { Grown names.old names.new }
    ensures few { length names.new ≤ length names.old + length bytes.now + 1 }
    ensures small { IfOk result (λ tree. node_count tree < 2 ^ 32) }
    ensures later { IfOk result (λ tree. (texts : List (List ℕ)) → Grown names.new texts → tree_at texts tree ≡ tree_at names.new tree) }
{
    let derivation = derive_text(alloc, bytes)?;
    let nameless = names.intern("")?;
    let values = build(alloc, bytes, &derivation, nameless, names)?;
    Ok(tree_in(values))
}

// The tree of the one value of a whole text.
fn tree_in(values: Vec<Value>) -> Tree
    ensures { (texts : List (List ℕ)) → tree_at texts result ≡ tree_in (map (value_at texts) values.items) }
{
    let mut left = values.into_iter();
    match (left.next(), left.next()) {
        (Some(value), None) => tree_of(value),
        _ => Tree {
            root: Node::Nothing,
        },
    }
}

// The tree of a value, where it is one.
fn tree_of(value: Value) -> Tree
    ensures { (texts : List (List ℕ)) → tree_at texts result ≡ tree_in (map (value_at texts) (value ∷ [])) }
{
    let mut value = value;
    Tree {
        root: node_in(&mut value.made),
    }
}
