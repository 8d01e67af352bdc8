// How large the methods of typed programs are, and what they do with the values that wait.
ghost use Rattle.std.specs.Prelude.{◌≡◌, ℕ, List, length, map, Some, None, slice_get};
ghost use Rattle.vg_syntax.specs.Tree.{Node};
ghost use Rattle.vg_source.specs.Program.{source_of};
ghost use Rattle.vg_rules.specs.Refusal.{refusal_of};
ghost use Rattle.vg_method_sizes.specs.Sizes.{sizes};
ghost use Rattle.vg_method_locals.specs.Among.{InMethods};
ghost use Rattle.vg_source_counts.specs.Forms.{IsFormed};
ghost use Rattle.vg_core.specs.declared.program.Method.{Method};
ghost use Rattle.vg_core.specs.Naming.{naming_of, named};
ghost use Rattle.vg_core.specs.Program.{Body, Program};
ghost use Rattle.vg_renamed.specs.NamesTell.{NamesTell};
ghost use Rattle.vg_packed_typed.specs.Methods.{AreCounted};

use vg_method_locals::locals_are_counted;
use vg_method_sizes::numbers_are_places;
use vg_source_counts::methods_are_counted;

/// Of a typed program that is, with names, the source program of a tree, and whose methods keep how many nodes their bodies have: each method has, by its
/// number, as many parameters, other locals and nodes as the tree's sizes count, where locals stand among statements alone. The body calls the laws that it
/// follows from.
pub fn methods_have_sizes()
    ensures { (texts : List (List ℕ)) (tree : Node) (p : Program) → source_of tree ≡ named (naming_of texts p.tables) p
        → NamesTell (naming_of texts p.tables) p → map (λ m. m.nodes) p.tables.methods ≡ map (λ s. s.nodes) (sizes tree) → InMethods tree
        → (m : ℕ) (y : Method) (b : Body) → slice_get p.tables.methods m ≡ Some y → slice_get p.methods m ≡ Some b
        → slice_get (sizes tree) m ≡ Some (record { params = length y.params; locals = length b.others; nodes = y.nodes }) }
{
    numbers_are_places();
    locals_are_counted();
}

/// Where the tree is refused for nothing, and its nodes stand as the grammar has them, each method of such a program has at most 60 parameters and locals, and
/// its code takes and leaves its values in order: at most two values more wait in it than its body has nodes. The body calls the laws that it follows from.
pub fn methods_take_in_order()
    ensures { (texts : List (List ℕ)) (tree : Node) (p : Program) → refusal_of tree ≡ None → source_of tree ≡ named (naming_of texts p.tables) p
        → NamesTell (naming_of texts p.tables) p → map (λ m. m.nodes) p.tables.methods ≡ map (λ s. s.nodes) (sizes tree) → InMethods tree
        → IsFormed tree → AreCounted p }
{
    numbers_are_places();
    locals_are_counted();
    methods_are_counted();
}
