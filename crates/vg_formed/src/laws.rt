// The forms of the nodes of texts.
ghost use Rattle.std.specs.Prelude.{ℕ, List};
ghost use Rattle.vg_syntax.specs.Tree.{Node};
ghost use Rattle.vg_syntax.specs.Reads.{Reads};
ghost use Rattle.vg_source_counts.specs.Forms.{IsFormed};

/// In the tree of a text the body of each method is of statements, and below them each node has the form of its place: the grammar spells no
/// other. The body is empty: its contract is a law of the definitions.
pub fn texts_are_formed()
    ensures { (bytes : List ℕ) (tree : Node) → Reads bytes tree → IsFormed tree }
{}
