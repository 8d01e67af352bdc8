// Laws of the grammar.
ghost use Rattle.std.specs.Prelude.{ℕ, List};
ghost use Rattle.vg_syntax.specs.declared.token.Token.{Token};
ghost use Rattle.vg_syntax.specs.Parses.{NoTreeAt, Sentence};

/// Tokens that cease to begin a text at some place are no text. The body is empty: its contract is a law of the definitions.
pub fn no_text()
    ensures { (ts : List Token) (i : ℕ) → NoTreeAt ts i → Sentence ts → ⊥ }
{}
