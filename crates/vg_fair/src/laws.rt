// The laws of "the same in fair worlds".
ghost use Rattle.std.specs.Prelude.{ℕ, Bool, ◌<◌};
ghost use Rattle.vg_meaning.specs.History.{Active, Recorder};
ghost use Rattle.vg_meaning.specs.Answer.{Signal, Returns, Answer, Piece, and_then, stops};
ghost use Rattle.vg_meaning.specs.Calls.{opened, returned};
ghost use Rattle.vg_meaning.specs.Loops.{Test};
ghost use Rattle.vg_meaning.specs.Devices.{read_device, write_device};
ghost use Rattle.vg_meaning.specs.Interrupts.{idles};
ghost use Rattle.vg_meaning.specs.Code.{Code, performed, replaced};
ghost use Rattle.vg_meaning.specs.Shapes.{Shapes, Fits};
ghost use Rattle.vg_meaning.specs.Same.{SameTest, Left};
ghost use Rattle.vg_fair.specs.Fair.{Alike, AlikePiece};

use vg_meaning_laws::equivalence::{Related, Shaped};

/// Pieces that do the same in fair worlds do so one behind the other, and in calls; a stop does so from any node. The body is empty: its
/// contract is a law of the definitions, as those below.
pub fn fair_pieces<S, T, K, R: Related<S, T>>()
    ensures sequence { (a : Answer S K) (b : Answer T K) (f : Piece S K) (g : Piece T K)
        → Alike R.before R.leaving a b → AlikePiece R.before R.behind R.leaving f g
        → Alike R.behind R.leaving (and_then a f) (and_then b g) }
    ensures stops { (code at at' : ℕ) → AlikePiece {S = S} {T = T} {K = K} R.before R.behind R.leaving (stops code at) (stops code at') }
    ensures opened { (r : Recorder K) (call : Active) (f : Piece S K) (g : Piece T K)
        → AlikePiece R.before R.behind R.leaving f g → AlikePiece R.before R.behind R.leaving (opened r call f) (opened r call g) }
{}

/// The end of a body is the same to its callers: B is of the body, R of the caller.
pub fn fair_returns<S, T, K, B: Related<S, T>, R: Related<S, T>>()
    ensures { (a : Answer S K) (b : Answer T K) (f : Piece S K) (g : Piece T K)
        → Alike B.before B.leaving a b → AlikePiece B.before R.behind R.leaving f g
        → ((s : S) (t : T) → B.leaving Returns s t → R.behind s t)
        → Alike R.behind R.leaving (returned a f) (returned b g) }
{}

/// A read gives the same byte, a write and the idle loop do the same.
pub fn fair_outside<S, T, K, R: Related<S, T>>()
    ensures read { (address : ℕ) (f : ℕ → Piece S K) (g : ℕ → Piece T K)
        → ((v : ℕ) → v < 256 → AlikePiece R.before R.behind R.leaving (f v) (g v))
        → AlikePiece R.before R.behind R.leaving (read_device address f) (read_device address g) }
    ensures write { (address value : ℕ)
        → AlikePiece {S = S} {T = T} {K = K} R.before R.before R.leaving (write_device address value) (write_device address value) }
    ensures idle { (n : ℕ) (f : ℕ → Piece S K) (g : ℕ → Piece T K)
        → ((k : ℕ) → AlikePiece R.before R.before R.leaving (f k) (g k))
        → AlikePiece R.before R.before R.leaving (idles n f) (idles n g) }
{}

/// A pass that replaces steps by code is right in fair worlds for all code that fits, where it is right there for each step.
pub fn fair_code<P, Q, X, S, T, K, R: Shaped<P, X, S, T>>()
    ensures { (r : Recorder K) (step : P → Piece S K) (test : S → Test S) (step' : Q → Piece T K) (test' : T → Test T) (move : P → Code Q)
        → ((p : P) (x y : X) → R.known.Takes p x y
        → AlikePiece (R.related x) (R.related y) (Left R.known R.related R.results) (step p) (performed r step' test' (move p)))
        → ((x y : X) → R.known.Truth x y → (s : S) (t : T) → R.related x s t → SameTest (R.related y) (test s) (test' t))
        → ((x : X) → R.known.Result x → (s : S) (t : T) → R.related x s t → R.results s t)
        → (looped : Bool) (c : Code P) (x y : X) → Fits R.known looped c x y
        → AlikePiece (R.related x) (R.related y) (Left R.known R.related R.results)
        (performed r step test c) (performed r step' test' (replaced move c)) }
{}
