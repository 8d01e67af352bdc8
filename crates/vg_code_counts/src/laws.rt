// The laws of counted code.
ghost use Rattle.std.specs.Prelude.{◌≡◌, ◌≤◌, ℕ, Bool, true};
ghost use Rattle.vg_meaning.specs.Code.{Code, Do, replaced};
ghost use Rattle.vg_code_counts.specs.Counted.{Measures, Counted, AreAlike};
ghost use Rattle.vg_code_counts.specs.Each.{EachStep};

/// Code for which so many values may wait is code for which more may. The body is empty: its contract is a law of the definitions, as that
/// below.
pub fn counted_for_more<P>()
    ensures { (k : Measures P) (c : Code P) (most more : ℕ) (looped : Bool) (below x y : ℕ) → most ≤ more
        → Counted k most looped below c x y → Counted k more looped below c x y }
{}

/// Code is counted as its renamed form is, whose steps stand for its own one by one and take and leave as many; and what is told of each
/// step of that form is told, under the new name, of each step of the code.
pub fn renamed_alike<P, Q>()
    ensures counted { (k : Measures P) (j : Measures Q) (f : P → Q) → AreAlike k j f
        → (c : Code P) (most : ℕ) (looped : Bool) (below x y : ℕ)
        → Counted j most looped below (replaced (λ p. Do (f p)) c) x y → Counted k most looped below c x y }
    ensures steps { (f : P → Q) (has : Q → Bool) (c : Code P) → EachStep (λ q. has q ≡ true) (replaced (λ p. Do (f p)) c)
        → EachStep (λ p. has (f p) ≡ true) c }
{}
