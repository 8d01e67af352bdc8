// The laws of what holds of all answers of a run: that it is never Wrong, or what its open calls are.
ghost use Rattle.std.specs.Prelude.{ℕ, Bool};
ghost use Rattle.vg_meaning.specs.History.{Active, Recorder};
ghost use Rattle.vg_meaning.specs.World.{World};
ghost use Rattle.vg_meaning.specs.Answer.{
  End,
  Stops,
  Wants,
  Touches,
  Done,
  OutOfClock,
  OutOfDepth,
  Wrong,
  Signal,
  Breaks,
  Continues,
  Returns,
  Over,
  Answer,
  Piece,
  over,
  and_then,
  unless,
  stops,
};
ghost use Rattle.vg_meaning.specs.Clock.{ticked};
ghost use Rattle.vg_meaning.specs.Calls.{note_call, opened, returned};
ghost use Rattle.vg_meaning.specs.Loops.{Test, choose, loop};
ghost use Rattle.vg_meaning.specs.Devices.{read_device, write_device};
ghost use Rattle.vg_meaning.specs.Interrupts.{take_interrupt, idles};
ghost use Rattle.vg_meaning.specs.Code.{Code, performed};
ghost use Rattle.vg_meaning.specs.Shapes.{Shapes, Fits};
ghost use Rattle.vg_meaning.specs.Same.{Same};
ghost use Rattle.vg_meaning.specs.Safe.{Safe, SafePiece, NoWay, SafeTest, Within, Leaving, Ticks, IsRight, Alike};

use crate::equivalence::Related;

/// What holds of states and histories: before a piece, behind it, where it leaves for a reason, and where the whole run is over.
pub trait Holding<S, H> {
    ghost before: { S → H → Type 0 };

    ghost behind: { S → H → Type 0 };

    ghost leaving: { Signal → S → H → Type 0 };

    ghost over: { End → H → Type 0 };
}

/// What holds of states and histories by their shapes, and what is known of the steps.
pub trait HoldingByShape<P, X, S, H> {
    ghost known: { Shapes P X };

    ghost holding: { X → S → H → Type 0 };

    ghost results: { S → H → Type 0 };

    ghost over: { End → H → Type 0 };
}

/// One piece behind another, the end of a run, exceptions, limits and ticks.
pub fn safe_pieces<S, H, G: Holding<S, H>>()
    ensures sequence { (a : Answer S H) (p : Piece S H)
        → Safe G.before G.leaving G.over a → SafePiece G.before G.behind G.leaving G.over p
        → Safe G.behind G.leaving G.over (and_then a p) }
    ensures over { (why : End) → ((s : S) (h : H) → G.before s h → G.over why h) → SafePiece G.before G.behind G.leaving G.over (over why) }
    ensures stops { (code at : ℕ) → ((at' : _) (s : S) (h : H) → G.before s h → G.over (Stops code at') h)
        → SafePiece G.before G.behind G.leaving G.over (stops code at) }
    ensures limit { (b : Bool) (why : End) (p : Piece S H) → ((s : S) (h : H) → G.before s h → G.over why h)
        → SafePiece G.before G.behind G.leaving G.over p → SafePiece G.before G.behind G.leaving G.over (unless b why p) }
    ensures tick { (r : Recorder H) (p : Piece S H) → Ticks r G.before G.over
        → SafePiece G.before G.behind G.leaving G.over p → SafePiece G.before G.behind G.leaving G.over (ticked r p) }
    ensures choice { (x : Test S) (p q : Piece S H)
        → SafePiece G.before G.behind G.leaving G.over p → SafePiece G.before G.behind G.leaving G.over q
        → (s : S) (w : World H) → SafeTest G.before G.over w.history x → Safe G.behind G.leaving G.over (choose x p q s w) }
{}

/// Calls: B is what holds of the called body, from behind the tick of its call to its end, and G what holds around the call.
pub fn safe_calls<S, H, B: Holding<S, H>, G: Holding<S, H>>()
    ensures opened { (r : Recorder H) (call : Active) (p : Piece S H)
        → ((s : S) (h : H) → G.before s h → B.before s (note_call r call h))
        → ((s : S) (h : H) → G.before s h → G.over OutOfClock h) → ((s : S) (h : H) → B.before s h → G.over OutOfDepth h)
        → ((s : S) (h : H) → B.behind s h → G.behind s (r.close_call h))
        → SafePiece B.before B.behind NoWay G.over p → SafePiece G.before G.behind G.leaving G.over (opened r call p) }
    ensures returned { (a : Answer S H) (p : Piece S H)
        → Safe B.before B.leaving G.over a → SafePiece B.before G.behind G.leaving G.over p
        → ((s : S) (h : H) → B.leaving Returns s h → G.behind s h)
        → ((s : S) (h : H) → B.leaving Breaks s h → G.over Wrong h) → ((s : S) (h : H) → B.leaving Continues s h → G.over Wrong h)
        → ((why : End) (s : S) (h : H) → B.leaving (Over why) s h → G.over why h)
        → Safe G.behind G.leaving G.over (returned a p) }
{}

/// Loops, where it holds of conditions, bodies and what is done behind the bodies.
pub fn safe_loops<S, H, G: Holding<S, H>>()
    ensures { (r : Recorder H) (c : Piece S H → Piece S H) (body next : Piece S H)
        → Ticks r G.before G.over → ((why : End) (s : S) (h : H) → G.leaving (Over why) s h → G.over why h)
        → ((p : Piece S H) → SafePiece G.before G.before G.leaving G.over p → SafePiece G.before G.before G.leaving G.over (c p))
        → SafePiece G.before G.before (Within G.before G.leaving) G.over body → SafePiece G.before G.before G.leaving G.over next
        → SafePiece G.before G.before G.leaving G.over (loop r c body next) }
{}

/// Device reads and writes, the taking of an interrupt and the idle loop.
pub fn safe_outside<S, H, G: Holding<S, H>>()
    ensures read { (address : ℕ) (p : ℕ → Piece S H) → ((s : S) (h : H) → G.before s h → G.over (Touches address) h)
        → ((s : S) (h : H) → G.before s h → G.over (Wants address) h) → ((v : ℕ) → SafePiece G.before G.behind G.leaving G.over (p v))
        → SafePiece G.before G.behind G.leaving G.over (read_device address p) }
    ensures write { (address value : ℕ) → ((s : S) (h : H) → G.before s h → G.over (Touches address) h)
        → SafePiece G.before G.before G.leaving G.over (write_device address value) }
    ensures interrupt { (p : ℕ → Piece S H) → ((s : S) (h : H) → G.before s h → G.over Done h)
        → ((k : ℕ) → SafePiece G.before G.behind G.leaving G.over (p k))
        → SafePiece G.before G.behind G.leaving G.over (take_interrupt p) }
    ensures idle { (n : ℕ) (p : ℕ → Piece S H) → ((s : S) (h : H) → G.before s h → G.over Done h)
        → ((k : ℕ) → SafePiece G.before G.before G.leaving G.over (p k)) → SafePiece G.before G.before G.leaving G.over (idles n p) }
{}

/// Whole code that fits, where it holds of each step: only a loop is broken or continued.
pub fn safe_code<P, X, S, H, G: HoldingByShape<P, X, S, H>>()
    ensures { (r : Recorder H) (step : P → Piece S H) (test : S → Test S) → Ticks r (G.holding G.known.between) G.over
        → ((p : P) (x y : X) → G.known.Takes p x y → SafePiece (G.holding x) (G.holding y) NoWay G.over (step p))
        → ((x y : X) → G.known.Truth x y → (s : S) (h : H) → G.holding x s h → SafeTest (G.holding y) G.over h (test s))
        → ((x : X) → G.known.Result x → (s : S) (h : H) → G.holding x s h → G.results s h)
        → (looped : Bool) (c : Code P) (x y : X) → Fits G.known looped c x y
        → SafePiece (G.holding x) (G.holding y) (Leaving G.known G.holding G.results looped) G.over (performed r step test c) }
{}

/// What does the same as a run that is never Wrong ends in the very same world, and for the same reason.
pub fn right_runs_agree<S, T, H, R: Related<S, T>, G: Holding<S, H>>()
    ensures { (a : Answer S H) (b : Answer T H) → Same R.behind R.leaving a b → Safe G.behind NoWay IsRight a → Alike a b }
{}
