// What methods of texts do with the values that wait, and what their calls cost.
ghost use Rattle.std.specs.Prelude.{◌≡◌, ◌+◌, ◌*◌, ℕ, List, length, Some, None, slice_get};
ghost use Rattle.vg_syntax.specs.Tree.{Node};
ghost use Rattle.vg_syntax.specs.Reads.{Reads};
ghost use Rattle.vg_source.specs.Peak.{costs, cost_of};
ghost use Rattle.vg_rules.specs.Refusal.{refusal_of};
ghost use Rattle.vg_core.specs.declared.program.Method.{Method};
ghost use Rattle.vg_core.specs.Program.{Body, Program};
ghost use Rattle.vg_types_named.specs.Programs.{IsProgramOf};
ghost use Rattle.vg_packed_typed.specs.Methods.{AreCounted};

use vg_formed::texts_are_formed;
use vg_method_locals::locals_among_statements;
use vg_method_sizes::costs_by_size;
use vg_named_counted::{methods_have_sizes, methods_take_in_order};

/// In the typed program of a text that is refused for nothing each method has at most 60 parameters and locals, and its code takes and leaves its values in
/// order: at most two values more wait in it than its body has nodes. The body calls the laws that it follows from.
pub fn methods_of_texts_take_in_order()
    ensures { (bytes : List ℕ) (texts : List (List ℕ)) (tree : Node) (p : Program) → IsProgramOf texts tree p → Reads bytes tree
        → refusal_of tree ≡ None → AreCounted p }
{
    methods_take_in_order();
    locals_among_statements();
    texts_are_formed();
}

/// An active call of a method of a text costs 32, and 4 for each of the parameters, the other locals and the nodes that the method has in the typed program of
/// the text; and there are as many costs as methods. The body calls the laws that it follows from.
pub fn methods_of_texts_cost()
    ensures each { (bytes : List ℕ) (texts : List (List ℕ)) (tree : Node) (p : Program) → IsProgramOf texts tree p → Reads bytes tree
        → (m : ℕ) (y : Method) (b : Body) → slice_get p.tables.methods m ≡ Some y → slice_get p.methods m ≡ Some b
        → cost_of (costs tree) m ≡ 32 + 4 * (length y.params + length b.others + y.nodes) }
    ensures many { (texts : List (List ℕ)) (tree : Node) (p : Program) → IsProgramOf texts tree p → length (costs tree) ≡ length p.tables.methods }
{
    costs_by_size();
    methods_have_sizes();
    locals_among_statements();
}
