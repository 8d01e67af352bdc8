// The law of the types of parameters and locals.
ghost use Rattle.std.specs.Prelude.{ℕ, List};
ghost use Rattle.vg_syntax.specs.Tree.{Node};
ghost use Rattle.vg_syntax.specs.Reads.{Reads};
ghost use Rattle.vg_written_locals.specs.Locals.{HaveWrittenTypes};

/// In the tree of a text the types of parameters and locals are written. The body is empty: its contract is a law of the definitions.
pub fn locals_have_written_types()
    ensures { (bytes : List ℕ) (tree : Node) → Reads bytes tree → HaveWrittenTypes tree }
{}
