// The law of spelling.
ghost use Rattle.std.specs.Prelude.{ℕ, List, length};
ghost use Rattle.vg_syntax.specs.Tree.{Node};
ghost use Rattle.vg_syntax.specs.Reads.{Reads};
ghost use Rattle.vg_source_ranges.specs.Spelled.{AreSpelled};

/// In the tree of a text each char is a byte and each string has bytes, no more than the text has; and the type of a field and of the elements of a
/// new array is written. The body is empty: its contract is a law of the definitions.
pub fn texts_are_spelled()
    ensures { (bytes : List ℕ) (tree : Node) → Reads bytes tree → AreSpelled (length bytes) tree }
{}
