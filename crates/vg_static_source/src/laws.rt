// The sums are one.
ghost use Rattle.std.specs.Prelude.{◌≡◌, ℕ};
ghost use Rattle.vg_syntax.specs.Tree.{Node};
ghost use Rattle.vg_source.specs.Values.{Heap};
ghost use Rattle.vg_static_source.specs.Sums.{AreTables, IsStatic};

/// A text and its heap need one number of bytes, by whichever test it is told what is live. The body is empty: its contract is a law of the definitions.
pub fn sums_are_one()
    ensures static_bytes { (text : Node) (h : Heap) (m n : ℕ) → IsStatic text h m → IsStatic text h n → m ≡ n }
    ensures table_bytes { (text : Node) (h : Heap) (m n : ℕ) → AreTables text h m → AreTables text h n → m ≡ n }
{}
