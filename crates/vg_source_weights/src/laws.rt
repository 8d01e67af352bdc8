// How much code weighs, by the nodes that it is of.
ghost use Rattle.std.specs.Prelude.{◌≤◌, ℕ, ◌*◌};
ghost use Rattle.vg_syntax.specs.Tree.{Node};
ghost use Rattle.vg_syntax.specs.Numbering.{count_nodes};
ghost use Rattle.vg_source.specs.Resolved.{Owner, Scope, Fresh, resolved};
ghost use Rattle.vg_source.specs.Program.{source_of};
ghost use Rattle.vg_method_sizes.specs.Sizes.{sizes, methods_among};
ghost use Rattle.vg_source_sizes.specs.Arms.{ArmsHaveBlocks};
ghost use Rattle.vg_argument_nodes.specs.Arguments.{ArgumentsAreNodes};
ghost use Rattle.vg_source_weights.specs.Weights.{extras, AreLight};

use vg_source_sizes::sizes_within_nodes;

/// What the code of a node or row costs beside its size is at most twice as much as there are nodes, where each argument of a call is a node. The body
/// is empty: its contract is a law of the definitions.
pub fn extras_within_nodes()
    ensures { (ds : Node) (o : Owner) (body : Node) (ls : Scope) → ArgumentsAreNodes body
        → extras (resolved ds o body Fresh ls).does ≤ 2 * count_nodes body }
{}

/// The code of each method of a text's source program, number by number, weighs at most 28 times as much as the method's body has nodes. The body
/// calls the law that it follows from.
pub fn weights_within_nodes()
    ensures { (text : Node) → ArmsHaveBlocks text → ArgumentsAreNodes text → AreLight (methods_among (source_of text).routines) (sizes text) }
{
    sizes_within_nodes();
}
