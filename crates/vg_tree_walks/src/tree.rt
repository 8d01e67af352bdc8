// The tree of a text.
ghost use Rattle.std.specs.Prelude.{◌≡◌, ◌<◌, ◌^◌, ℕ, List};
ghost use Rattle.std.specs.Option.{option_map};
ghost use Rattle.vg_tree.specs.Held.{text_at};
ghost use Rattle.vg_tree_walks.specs.Whole.{tree_at, node_count};
ghost use Rattle.vg_tree_walks.specs.Lookups.{IsOnly, code_at, first_class};

use crate::class::{class_in, declarations_of};
use crate::walk::{pass, walk_from};
use vg_base::{Name, NodeId};
use vg_tree::Node;

/// The tree of a text.
///
/// Its nodes are numbered from 0 in preorder: each node comes before its children, and those stand in order of the text.
/// A tree keeps no numbers, since the shape gives them.
#[derive(Drop)]
pub struct Tree {
    pub root: Node,
}

impl Tree {
    /// The first class of this name. It takes no memory, and time in proportion to the tree.
    pub fn find_class(&self, name: Name) -> Option<NodeId>
        requires { node_count self.now < 2 ^ 32 }
        ensures { (texts : List (List ℕ)) → IsOnly texts name → option_map (λ id. id.0) result ≡ first_class (text_at texts name) (tree_at texts self.now) }
    {
        match declarations_of(&self.root) {
            None => None,
            Some(declarations) => class_in(declarations, name),
        }
    }

    /// How many statements and expressions there are at and below a node of this tree; 0 where it is none of this tree.
    ///
    /// A block, the parts of a chain and the suffixes of an operand count. It takes no memory, and time in proportion to the tree.
    pub fn count_nodes(&self, node: NodeId) -> u32
        requires { node_count self.now < 2 ^ 32 }
        ensures { (texts : List (List ℕ)) → result ≡ code_at node.0 (tree_at texts self.now) }
    {
        pass(&self.root, walk_from(0), node.0).found
    }
}
