// The law of costs.
ghost use Rattle.std.specs.Prelude.{◌≡◌, ◌≤◌, ℕ, List, [], None, length};
ghost use Rattle.vg_base.specs.Limits.{text_limit};
ghost use Rattle.vg_syntax.specs.Reads.{Reads};
ghost use Rattle.vg_tree_walks.specs.declared.tree.Tree.{Tree};
ghost use Rattle.vg_tree_walks.specs.Whole.{tree_at};
ghost use Rattle.vg_source.specs.Peak.{costs};
ghost use Rattle.vg_rules.specs.Refusal.{too_many, refusal_of};
ghost use Rattle.vg_costs.specs.Small.{AreSmall};

/// The costs of a text of at most 262,144 bytes are small, where it has too many of nothing, so also where it is refused for nothing: it has fewer than
/// 2^27 nodes, and its methods have at most 60 parameters and locals. The body is empty: its contract is a law of the definitions.
pub fn costs_are_small()
    ensures few { (bytes : List ℕ) (texts : List (List ℕ)) (tree : Tree) → length bytes ≤ text_limit → Reads bytes (tree_at texts tree)
        → too_many (tree_at texts tree) ≡ None → AreSmall (costs (tree_at [] tree)) }
    ensures legal { (bytes : List ℕ) (texts : List (List ℕ)) (tree : Tree) → length bytes ≤ text_limit → Reads bytes (tree_at texts tree)
        → refusal_of (tree_at texts tree) ≡ None → AreSmall (costs (tree_at [] tree)) }
{}
