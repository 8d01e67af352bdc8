// The laws of texts of which no image is built.
ghost use Rattle.std.specs.Prelude.{ℕ, ◌<◌, ◌≤◌, List, length};
ghost use Rattle.vg_base.specs.Limits.{text_limit};
ghost use Rattle.vg_code_bound.specs.Nodes.{IsCodeBound};
ghost use Rattle.vg_fits_given.specs.Fitted.{Fitted, IsFittedOf, named_start_heap};
ghost use Rattle.vg_tree_walks.specs.Whole.{tree_at};
ghost use Rattle.vg_text_image.specs.Made.{LacksFrames, LacksHandlers, LacksLinear};

use vg_text_linear::laws::short_texts_have_linear_code;
use vg_text_paid::laws::texts_are_paid;

/// Where what is packed of what fits of a text of at most 262,144 bytes has no linear code, 4,000 words, 64 for each node in the body of a live method, and
/// one for each two bytes of tables are more than 65,536. The body calls the law that it follows from.
pub fn texts_without_linear_code_are_long()
    ensures { (bytes : List ℕ) (clock : ℕ) (f : Fitted) → IsFittedOf bytes clock f → length bytes ≤ text_limit → LacksLinear f → (words : ℕ)
        → IsCodeBound (tree_at f.alive.start.names f.alive.start.tree) (named_start_heap f.alive.start) words → 65536 < words }
{
    short_texts_have_linear_code();
}

/// No handler of what is packed of what fits of such a text receives something, where no procedure is trimmed. And where the costs of the text's methods cannot
/// pay for that, the bound on the words of its code is above 65,536. The body calls the law that it follows from.
pub fn texts_that_are_not_built_are_long()
    ensures handlers { (bytes : List ℕ) (clock : ℕ) (f : Fitted) → IsFittedOf bytes clock f → length bytes ≤ text_limit → LacksHandlers f → ⊥ }
    ensures frames { (bytes : List ℕ) (clock : ℕ) (f : Fitted) → IsFittedOf bytes clock f → length bytes ≤ text_limit → LacksFrames f → (words : ℕ)
        → IsCodeBound (tree_at f.alive.start.names f.alive.start.tree) (named_start_heap f.alive.start) words → 65536 < words }
{
    texts_are_paid();
}
