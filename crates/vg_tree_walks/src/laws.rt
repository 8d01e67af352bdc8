// Laws of the tree that the compiler holds.
ghost use Rattle.std.specs.Prelude.{◌≡◌, ℕ, List, []};
ghost use Rattle.vg_syntax.specs.Numbering.{count_code, count_nodes};
ghost use Rattle.vg_tree_walks.specs.declared.tree.Tree.{Tree};
ghost use Rattle.vg_tree.specs.Held.{node_at};
ghost use Rattle.vg_tree_walks.specs.Whole.{tree_at, node_count};

/// A tree has as many nodes, and as many statements and expressions, as what the compiler holds for it, whatever the texts of its names.
/// The body is empty: its contract is a law of the definitions.
pub fn counts_agree()
    ensures nodes { (texts : List (List ℕ)) (tree : Tree) → count_nodes (tree_at texts tree) ≡ node_count tree }
    ensures code { (texts : List (List ℕ)) (tree : Tree) → count_code (tree_at texts tree) ≡ count_code (node_at [] tree.root) }
{}
