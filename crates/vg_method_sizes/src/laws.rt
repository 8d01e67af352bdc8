// What methods cost, and their numbers.
ghost use Rattle.std.specs.Prelude.{◌≡◌, ℕ, map, slice_get, Some};
ghost use Rattle.vg_syntax.specs.Tree.{Node};
ghost use Rattle.vg_source.specs.Steps.{Routine};
ghost use Rattle.vg_source.specs.Program.{source_of};
ghost use Rattle.vg_source.specs.Peak.{costs};
ghost use Rattle.vg_method_sizes.specs.Sizes.{sizes, cost, methods_among};

/// What the active calls of each method cost follows from its size, number by number.
pub fn costs_by_size()
    ensures { (text : Node) → costs text ≡ map cost (sizes text) }
{}

/// The methods of the source program of a text have the places of their sizes as numbers, and so many parameters.
pub fn numbers_are_places()
    ensures numbers { (text : Node) (i : ℕ) (r : Routine) → slice_get (methods_among (source_of text).routines) i ≡ Some r → r.number ≡ i }
    ensures params { (text : Node) → map (λ r. r.params) (methods_among (source_of text).routines) ≡ map (λ s. s.params) (sizes text) }
{}
