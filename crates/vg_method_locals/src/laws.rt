// How many locals the methods of a source program have.
ghost use Rattle.std.specs.Prelude.{◌≡◌, ℕ, List, map, length};
ghost use Rattle.vg_syntax.specs.Tree.{Node};
ghost use Rattle.vg_syntax.specs.Reads.{Reads};
ghost use Rattle.vg_source.specs.Program.{source_of};
ghost use Rattle.vg_method_sizes.specs.Sizes.{sizes, methods_among};
ghost use Rattle.vg_method_locals.specs.Among.{InMethods};

/// The methods of the source program of a text, number by number, have so many locals behind their parameters as the tree's sizes count,
/// where the locals of its bodies stand among statements alone. A tree with a local in the head of a `for` may break no rule, and its local
/// has no place in the program.
pub fn locals_are_counted()
    ensures { (text : Node) → InMethods text →
        map (λ r. length r.others) (methods_among (source_of text).routines) ≡ map (λ s. s.locals) (sizes text) }
{}

/// In the tree of a text the locals of methods stand among statements alone: the grammar spells no other.
pub fn locals_among_statements()
    ensures { (bytes : List ℕ) (tree : Node) → Reads bytes tree → InMethods tree }
{}
