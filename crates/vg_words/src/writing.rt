// The law of words that are written and read.
ghost use Rattle.std.specs.Prelude.{◌≡◌, ◌∷◌, [], ℕ, List, codes, map};
ghost use Rattle.vg_words.specs.Items.{Plain, items};
ghost use Rattle.vg_words.specs.Writing.{AreWritten, Written, items_of, words_of};

/// Plain words and options, written in either form and in any order, are read as what they are, and behind `--` each word is
/// plain. The body is empty: its contract is a law of the definitions.
pub fn words_are_read_as_written()
    ensures ended { (pieces : List Written) → AreWritten pieces → items (words_of pieces []) ≡ items_of pieces [] }
    ensures dashed { (pieces : List Written) (words : List (List ℕ)) → AreWritten pieces
        → items (words_of pieces (codes "--" ∷ words)) ≡ items_of pieces (map Plain words) }
{}
