// Laws of texts and their faults: one text has one answer.
ghost use Rattle.std.specs.Prelude.{◌≡◌, ℕ, List};
ghost use Rattle.vg_base.specs.declared.place.Place.{Place};
ghost use Rattle.vg_syntax.specs.Faults.{IsText, NoTreeIn, TooDeepIn};
ghost use Rattle.vg_syntax.specs.Reads.{Reads};
ghost use Rattle.vg_syntax.specs.Tree.{Node};

/// A text of the language has no fault, and a text that is none has one fault at one place. The body is empty: its contract is a law of the definitions.
pub fn one_answer()
    ensures no_fault { (bytes : List ℕ) (place : Place) → IsText bytes → NoTreeIn bytes place → ⊥ }
    ensures not_deep { (bytes : List ℕ) (place : Place) → IsText bytes → TooDeepIn bytes place → ⊥ }
    ensures one_cause { (bytes : List ℕ) (p q : Place) → NoTreeIn bytes p → TooDeepIn bytes q → ⊥ }
    ensures one_end { (bytes : List ℕ) (p q : Place) → NoTreeIn bytes p → NoTreeIn bytes q → p ≡ q }
    ensures one_bracket { (bytes : List ℕ) (p q : Place) → TooDeepIn bytes p → TooDeepIn bytes q → p ≡ q }
{}

/// Each text of the language has a tree, and bytes have at most one. The body is empty: its contract is a law of the definitions.
pub fn one_tree()
    ensures some { (bytes : List ℕ) → IsText bytes → (tree : Node) × Reads bytes tree }
    ensures one { (bytes : List ℕ) (a b : Node) → Reads bytes a → Reads bytes b → a ≡ b }
{}
