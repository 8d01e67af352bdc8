// How large code is, by the nodes that it is of.
ghost use Rattle.std.specs.Prelude.{◌≤◌, ℕ};
ghost use Rattle.vg_syntax.specs.Tree.{Node};
ghost use Rattle.vg_syntax.specs.Numbering.{count_nodes};
ghost use Rattle.vg_source.specs.Resolved.{Owner, Scope, Fresh, resolved};
ghost use Rattle.vg_source.specs.Program.{source_of};
ghost use Rattle.vg_method_sizes.specs.Sizes.{sizes, methods_among};
ghost use Rattle.vg_source_sizes.specs.Arms.{ArmsHaveBlocks};
ghost use Rattle.vg_source_sizes.specs.Sizes.{code_size, AreWithin};

/// The code of a node or row, without pairs of operators before an operand, is at most as large as there are nodes, where each arm of an
/// `if` has a block. The body is empty: its contract is a law of the definitions.
pub fn bodies_within_nodes()
    ensures { (ds : Node) (o : Owner) (body : Node) (ls : Scope) → ArmsHaveBlocks body
        → code_size (resolved ds o body Fresh ls).does ≤ count_nodes body }
{}

/// The code of each method of a text's source program, number by number, is at most as large as the method's body has nodes.
pub fn sizes_within_nodes()
    ensures { (text : Node) → ArmsHaveBlocks text → AreWithin (methods_among (source_of text).routines) (sizes text) }
{}
