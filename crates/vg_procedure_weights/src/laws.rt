// The weights of procedures.
ghost use Rattle.std.specs.Prelude.{◌≡◌, ◌≤◌, ℕ, ◌*◌, List, map, slice_get, Some};
ghost use Rattle.vg_syntax.specs.Tree.{Node};
ghost use Rattle.vg_codes.specs.Codes.{Codes};
ghost use Rattle.vg_source.specs.Program.{source_of};
ghost use Rattle.vg_method_sizes.specs.Sizes.{sizes};
ghost use Rattle.vg_source_sizes.specs.Arms.{ArmsHaveBlocks};
ghost use Rattle.vg_argument_nodes.specs.Arguments.{ArgumentsAreNodes};
ghost use Rattle.vg_core.specs.declared.program.Method.{Method};
ghost use Rattle.vg_core.specs.declared.program.Target.TheVariants.{Run};
ghost use Rattle.vg_core.specs.Naming.{naming_of, named};
ghost use Rattle.vg_core.specs.Program.{Program, Body, Signature, signature_of, body_of};
ghost use Rattle.vg_renamed.specs.NamesTell.{NamesTell};
ghost use Rattle.vg_flat_sizes.specs.Weights.{flat_weight};
ghost use Rattle.vg_packing.specs.Layout.{Layout};
ghost use Rattle.vg_packing.specs.Pass.{packed};

use vg_method_sizes::numbers_are_places;
use vg_packed_weights::packing_keeps_weight;
use vg_source_weights::weights_within_nodes;

/// Of a typed program that is, with names, the source program of a tree, and whose methods keep how many nodes their bodies have: the code
/// that is packed of a method weighs at most 28 times as much as its body has nodes, where each arm of an `if` has a block and each argument
/// of a call is a node. The body calls the laws that it follows from.
pub fn procedures_weigh_by_nodes()
    ensures { (texts : List (List ℕ)) (tree : Node) (p : Program) → source_of tree ≡ named (naming_of texts p.tables) p
        → NamesTell (naming_of texts p.tables) p → map (λ m. m.nodes) p.tables.methods ≡ map (λ s. s.nodes) (sizes tree)
        → ArmsHaveBlocks tree → ArgumentsAreNodes tree
        → (m : ℕ) (y : Method) (g : Signature) (b : Body) → slice_get p.tables.methods m ≡ Some y
        → signature_of p.tables (Run m) ≡ Some g → body_of p (Run m) ≡ Some b → (l : Layout) (k : Codes)
        → flat_weight (packed p.tables l k m g b).body ≤ 28 * y.nodes }
{
    numbers_are_places();
    weights_within_nodes();
    packing_keeps_weight();
}
