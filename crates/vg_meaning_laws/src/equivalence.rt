// The laws of "the same, clock for clock".
ghost use Rattle.std.specs.Prelude.{ℕ, Bool};
ghost use Rattle.vg_meaning.specs.History.{Active, Recorder};
ghost use Rattle.vg_meaning.specs.World.{World};
ghost use Rattle.vg_meaning.specs.Answer.{End, Signal, Returns, Answer, Piece, over, and_then, unless, stops};
ghost use Rattle.vg_meaning.specs.Clock.{ticked};
ghost use Rattle.vg_meaning.specs.Calls.{opened, returned};
ghost use Rattle.vg_meaning.specs.Loops.{Test, choose, loop};
ghost use Rattle.vg_meaning.specs.Devices.{read_device, write_device};
ghost use Rattle.vg_meaning.specs.Interrupts.{take_interrupt, idles};
ghost use Rattle.vg_meaning.specs.Code.{Code, performed, replaced};
ghost use Rattle.vg_meaning.specs.Shapes.{Shapes, Fits};
ghost use Rattle.vg_meaning.specs.Same.{
  Same,
  SamePiece,
  Nowhere,
  Always,
  Across,
  Inside,
  SameCondition,
  SameTest,
  Left,
};

/// What relates the states of two meanings: before a piece, behind it, and where it leaves for a reason.
pub trait Related<S, T> {
    ghost before: { S → T → Type 0 };

    ghost behind: { S → T → Type 0 };

    ghost leaving: { Signal → S → T → Type 0 };
}

/// What relates the states of two meanings by their shapes, and what is known of the steps of the first.
pub trait Shaped<P, X, S, T> {
    ghost known: { Shapes P X };

    ghost related: { X → S → T → Type 0 };

    ghost results: { S → T → Type 0 };
}

/// Where the first pieces do the same, and the second pieces do the same from there, one behind the other does the same.
pub fn sequencing<S, T, K, R: Related<S, T>>()
    ensures { (a : Answer S K) (b : Answer T K) (f : Piece S K) (g : Piece T K)
        → Same R.before R.leaving a b → SamePiece R.before R.behind R.leaving f g
        → Same R.behind R.leaving (and_then a f) (and_then b g) }
{}

/// The end of the whole run is the same from all states, and so is an exception.
pub fn ends<S, T, K, R: Related<S, T>>()
    ensures over { (why : End) → SamePiece {S = S} {T = T} {K = K} R.before R.behind R.leaving (over why) (over why) }
    ensures stops { (code at : ℕ) → SamePiece {S = S} {T = T} {K = K} R.before R.behind R.leaving (stops code at) (stops code at) }
{}

/// Pieces that do the same do so behind a limit and behind a tick.
pub fn limits_and_ticks<S, T, K, R: Related<S, T>>()
    ensures limit { (b : Bool) (why : End) (f : Piece S K) (g : Piece T K)
        → SamePiece R.before R.behind R.leaving f g → SamePiece R.before R.behind R.leaving (unless b why f) (unless b why g) }
    ensures tick { (r : Recorder K) (f : Piece S K) (g : Piece T K)
        → SamePiece R.before R.behind R.leaving f g → SamePiece R.before R.behind R.leaving (ticked r f) (ticked r g) }
{}

/// Where the tests take the same truth value and both branches do the same, the choices do the same.
pub fn choice<S, T, K, R: Related<S, T>>()
    ensures { (x : Test S) (y : Test T) (f f' : Piece S K) (g g' : Piece T K)
        → SameTest R.before x y → SamePiece R.before R.behind R.leaving f g → SamePiece R.before R.behind R.leaving f' g'
        → (s : S) (t : T) (w : World K) → Same R.behind R.leaving (choose x f f' s w) (choose y g g' t w) }
{}

/// Loops do the same where conditions, bodies and what is done behind the bodies do.
pub fn loops<S, T, K, R: Related<S, T>>()
    ensures { (r : Recorder K) (c : Piece S K → Piece S K) (d : Piece T K → Piece T K) (body next : Piece S K) (body' next' : Piece T K)
        → SameCondition K R.before R.leaving c d → SamePiece R.before R.before (Inside R.before R.leaving) body body'
        → SamePiece R.before R.before R.leaving next next'
        → SamePiece R.before R.before R.leaving (loop r c body next) (loop r d body' next') }
{}

/// Calls do the same where their bodies do: B is of the body, R of the caller.
pub fn calls<S, T, K, B: Related<S, T>, R: Related<S, T>>()
    ensures opened { (r : Recorder K) (call : Active) (f : Piece S K) (g : Piece T K)
        → SamePiece R.before R.behind R.leaving f g → SamePiece R.before R.behind R.leaving (opened r call f) (opened r call g) }
    ensures returned { (a : Answer S K) (b : Answer T K) (f : Piece S K) (g : Piece T K)
        → Same B.before B.leaving a b → SamePiece B.before R.behind R.leaving f g
        → ((s : S) (t : T) → B.leaving Returns s t → R.behind s t)
        → Same R.behind R.leaving (returned a f) (returned b g) }
    ensures nowhere { (a : Answer S K) (b : Answer T K) → Same R.behind Nowhere a b → Same R.behind R.leaving a b }
{}

/// Device reads and writes do the same.
pub fn devices<S, T, K, R: Related<S, T>>()
    ensures read { (address : ℕ) (f : ℕ → Piece S K) (g : ℕ → Piece T K)
        → ((v : ℕ) → SamePiece R.before R.behind R.leaving (f v) (g v))
        → SamePiece R.before R.behind R.leaving (read_device address f) (read_device address g) }
    ensures write { (address value : ℕ)
        → SamePiece {S = S} {T = T} {K = K} R.before R.before R.leaving (write_device address value) (write_device address value) }
{}

/// The taking of an interrupt and the idle loop do the same where the handlers do.
pub fn interrupts<S, T, K, R: Related<S, T>>()
    ensures taken { (f : ℕ → Piece S K) (g : ℕ → Piece T K)
        → ((k : ℕ) → SamePiece R.before R.behind R.leaving (f k) (g k))
        → SamePiece R.before R.behind R.leaving (take_interrupt f) (take_interrupt g) }
    ensures idle { (n : ℕ) (f : ℕ → Piece S K) (g : ℕ → Piece T K)
        → ((k : ℕ) → SamePiece R.before R.before R.leaving (f k) (g k))
        → SamePiece R.before R.before R.leaving (idles n f) (idles n g) }
{}

/// What does the same as what does the same does the same.
pub fn composition<S, T, U, K, R: Related<S, T>, Q: Related<T, U>>()
    ensures { (a : Answer S K) (b : Answer T K) (c : Answer U K)
        → Same R.behind R.leaving a b → Same Q.behind Q.leaving b c
        → Same (Across R.behind Q.behind) (λ why. Across (R.leaving why) (Q.leaving why)) a c }
{}

/// A pass that replaces steps by code is right for all code where it is right for each step.
pub fn passes<P, Q, S, T, K, R: Related<S, T>>()
    ensures { (r : Recorder K) (step : P → Piece S K) (test : S → Test S) (step' : Q → Piece T K) (test' : T → Test T) (move : P → Code Q)
        → ((p : P) → SamePiece R.before R.before (Always R.before) (step p) (performed r step' test' (move p)))
        → ((s : S) (t : T) → R.before s t → SameTest R.before (test s) (test' t))
        → (c : Code P)
        → SamePiece R.before R.before (Always R.before) (performed r step test c) (performed r step' test' (replaced move c)) }
{}

/// A pass whose steps are right only from states of the right shape is right for all code that fits.
pub fn passes_by_shape<P, Q, X, S, T, K, R: Shaped<P, X, S, T>>()
    ensures { (r : Recorder K) (step : P → Piece S K) (test : S → Test S) (step' : Q → Piece T K) (test' : T → Test T) (move : P → Code Q)
        → ((p : P) (x y : X) → R.known.Takes p x y
        → SamePiece (R.related x) (R.related y) (Left R.known R.related R.results) (step p) (performed r step' test' (move p)))
        → ((x y : X) → R.known.Truth x y → (s : S) (t : T) → R.related x s t → SameTest (R.related y) (test s) (test' t))
        → ((x : X) → R.known.Result x → (s : S) (t : T) → R.related x s t → R.results s t)
        → (looped : Bool) (c : Code P) (x y : X) → Fits R.known looped c x y
        → SamePiece (R.related x) (R.related y) (Left R.known R.related R.results)
        (performed r step test c) (performed r step' test' (replaced move c)) }
{}
