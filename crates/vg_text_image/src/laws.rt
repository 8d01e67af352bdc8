// The laws of the images of texts.
ghost use Rattle.std.specs.Prelude.{ℕ, ◌≤◌, List, length};
ghost use Rattle.vg_base.specs.Limits.{text_limit};
ghost use Rattle.vg_fits_given.specs.Fitted.{Fitted, IsFittedOf, named_start_heap};
ghost use Rattle.vg_layout.specs.declared.stack_bound.StackBound.TheVariants.{Bytes};
ghost use Rattle.vg_tree_walks.specs.Whole.{tree_at};
ghost use Rattle.vg_text_image.specs.declared.making.TextImage.{TextImage};
ghost use Rattle.vg_text_image.specs.Made.{BoundsCallsOf, CanCompile, DoesText, IsCompiledOf, NeedsOf};

/// A law of texts that fit: what fits of a text of at most 262,144 bytes can be compiled, as `image_of` asks. The body is empty: its contract is a law of the
/// definitions.
pub fn fitted_texts_can_be_compiled()
    ensures { (bytes : List ℕ) (clock : ℕ) (f : Fitted) → IsFittedOf bytes clock f → length bytes ≤ text_limit → CanCompile f }
{}

/// A law of texts that fit: what calls are said to need that a stack has no room for is said of the calls of the text. The body is empty: its contract is a law
/// of the definitions.
pub fn needs_are_of_texts()
    ensures { (bytes : List ℕ) (clock : ℕ) (f : Fitted) → IsFittedOf bytes clock f → length bytes ≤ text_limit → (need : ℕ) → NeedsOf f need
        → BoundsCallsOf (tree_at f.alive.start.names f.alive.start.tree) (named_start_heap f.alive.start) (Bytes need) }
{}

/// A law of the images of texts: the machine does in the image of what fits of a text what the text does from its initialised components, for all contents of
/// registers and SRAM at power-on, all reads, interrupts and clocks, with every stack for which there is room above the static area, and which is no smaller than
/// the bound where the stack is bounded; or the active calls cost more than the stack, and it reaches below the floor first. The body is empty: its contract is a law of the definitions.
pub fn images_do_as_texts()
    ensures { (bytes : List ℕ) (clock : ℕ) (f : Fitted) → IsFittedOf bytes clock f → length bytes ≤ text_limit → (i : TextImage) → IsCompiledOf f i
        → DoesText bytes clock i }
{}
