// The weights of the procedures of texts.
ghost use Rattle.std.specs.Prelude.{◌≡◌, ◌≤◌, ℕ, ◌*◌, List, slice_get, Some};
ghost use Rattle.vg_syntax.specs.Tree.{Node};
ghost use Rattle.vg_syntax.specs.Reads.{Reads};
ghost use Rattle.vg_codes.specs.Codes.{Codes};
ghost use Rattle.vg_core.specs.declared.program.Method.{Method};
ghost use Rattle.vg_core.specs.declared.program.Target.TheVariants.{Run};
ghost use Rattle.vg_core.specs.Program.{Program, Body, Signature, signature_of, body_of};
ghost use Rattle.vg_flat_sizes.specs.Weights.{flat_weight};
ghost use Rattle.vg_packing.specs.Layout.{Layout};
ghost use Rattle.vg_packing.specs.Pass.{packed};
ghost use Rattle.vg_types_named.specs.Programs.{IsProgramOf};

use vg_argument_nodes::arguments_are_nodes;
use vg_block_arms::arms_have_blocks;
use vg_procedure_weights::procedures_weigh_by_nodes;

/// In the typed program of a text, the code that is packed of a method weighs at most 28 times as much as its body has nodes in the text's tree. The body
/// calls the laws that it follows from.
pub fn packed_texts_are_light()
    ensures { (bytes : List ℕ) (texts : List (List ℕ)) (tree : Node) (p : Program) → IsProgramOf texts tree p → Reads bytes tree
        → (m : ℕ) (y : Method) (g : Signature) (b : Body) → slice_get p.tables.methods m ≡ Some y
        → signature_of p.tables (Run m) ≡ Some g → body_of p (Run m) ≡ Some b → (l : Layout) (k : Codes)
        → flat_weight (packed p.tables l k m g b).body ≤ 28 * y.nodes }
{
    procedures_weigh_by_nodes();
    arms_have_blocks();
    arguments_are_nodes();
}
