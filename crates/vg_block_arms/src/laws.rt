// The arms of the trees of texts.
ghost use Rattle.std.specs.Prelude.{ℕ, List};
ghost use Rattle.vg_syntax.specs.Tree.{Node};
ghost use Rattle.vg_syntax.specs.Reads.{Reads};
ghost use Rattle.vg_source_sizes.specs.Arms.{ArmsHaveBlocks};

/// In the tree of a text each arm of an `if` has a block: the grammar spells no other.
pub fn arms_have_blocks()
    ensures { (bytes : List ℕ) (tree : Node) → Reads bytes tree → ArmsHaveBlocks tree }
{}
