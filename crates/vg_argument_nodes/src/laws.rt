// The arguments of the trees of texts.
ghost use Rattle.std.specs.Prelude.{ℕ, List};
ghost use Rattle.vg_syntax.specs.Tree.{Node};
ghost use Rattle.vg_syntax.specs.Reads.{Reads};
ghost use Rattle.vg_argument_nodes.specs.Arguments.{ArgumentsAreNodes};

/// In the tree of a text each argument of a call is a node: the grammar spells an expression there.
pub fn arguments_are_nodes()
    ensures { (bytes : List ℕ) (tree : Node) → Reads bytes tree → ArgumentsAreNodes tree }
{}
