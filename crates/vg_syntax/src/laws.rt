// Laws of the definitions.
ghost use Rattle.std.specs.Prelude.{◌≡◌, ℕ};
ghost use Rattle.vg_syntax.specs.Numbering.{count_code, count_nodes, numbered};
ghost use Rattle.vg_syntax.specs.Tree.{Node};

/// Numbering changes no count. The body is empty: its contract is a law of the definitions.
pub fn numbers_leave_counts()
    ensures nodes { (i : ℕ) (n : Node) → count_nodes (numbered i n) ≡ count_nodes n }
    ensures code { (i : ℕ) (n : Node) → count_code (numbered i n) ≡ count_code n }
{}
