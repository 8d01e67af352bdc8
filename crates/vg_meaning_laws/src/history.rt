// The laws of histories: a run that keeps less follows one that keeps more.
ghost use Rattle.std.specs.Prelude.{◌≡◌, ℕ, Bool};
ghost use Rattle.vg_meaning.specs.History.{Active, Recorder, full, depth_alone, depth_of};
ghost use Rattle.vg_meaning.specs.Answer.{End, Answer, Piece, over, and_then, unless, stops};
ghost use Rattle.vg_meaning.specs.Clock.{ticked};
ghost use Rattle.vg_meaning.specs.Calls.{opened, returned};
ghost use Rattle.vg_meaning.specs.Loops.{Test, choose, where_holds, loop};
ghost use Rattle.vg_meaning.specs.Devices.{read_device, write_device};
ghost use Rattle.vg_meaning.specs.Interrupts.{take_interrupt, idles};
ghost use Rattle.vg_meaning.specs.Code.{Code, performed};
ghost use Rattle.vg_meaning_laws.specs.Told.{Told, ToldPiece, Tells};

/// The number of active calls takes the recorder that keeps the whole history to the one that keeps the depth alone.
pub fn depth_follows()
    ensures { Tells depth_of full depth_alone }
{}

/// One piece behind another, the end of a run, a limit and a choice follow where their parts do.
pub fn told_pieces<S, H, K>()
    ensures sequence { (f : H → K) (a : Answer S H) (b : Answer S K) (p : Piece S H) (p' : Piece S K)
        → Told f a b → ToldPiece f p p' → Told f (and_then a p) (and_then b p') }
    ensures over { (f : H → K) (why : End) → ToldPiece {S = S} f (over why) (over why) }
    ensures stops { (f : H → K) (code at : ℕ) → ToldPiece {S = S} f (stops code at) (stops code at) }
    ensures limit { (f : H → K) (b c : Bool) (why : End) (p : Piece S H) (p' : Piece S K)
        → b ≡ c → ToldPiece f p p' → ToldPiece f (unless b why p) (unless c why p') }
    ensures choice { (f : H → K) (x : Test S) (p q : Piece S H) (p' q' : Piece S K)
        → ToldPiece f p p' → ToldPiece f q q' → ToldPiece f (choose x p q) (choose x p' q') }
{}

/// Ticks, calls and loops follow where their parts do.
pub fn told_clock<S, H, K>()
    ensures tick { (f : H → K) (r : Recorder H) (q : Recorder K) → Tells f r q → (p : Piece S H) (p' : Piece S K)
        → ToldPiece f p p' → ToldPiece f (ticked r p) (ticked q p') }
    ensures opened { (f : H → K) (r : Recorder H) (q : Recorder K) → Tells f r q → (call : Active) (p : Piece S H) (p' : Piece S K)
        → ToldPiece f p p' → ToldPiece f (opened r call p) (opened q call p') }
    ensures returned { (f : H → K) (a : Answer S H) (b : Answer S K) (p : Piece S H) (p' : Piece S K)
        → Told f a b → ToldPiece f p p' → Told f (returned a p) (returned b p') }
    ensures loops { (f : H → K) (r : Recorder H) (q : Recorder K) → Tells f r q
        → (test : S → Test S) (c body next : Piece S H) (c' body' next' : Piece S K)
        → ToldPiece f c c' → ToldPiece f body body' → ToldPiece f next next'
        → ToldPiece f (loop r (where_holds c test) body next) (loop q (where_holds c' test) body' next') }
{}

/// Device reads and writes, the taking of an interrupt and the idle loop follow where what is done behind them does.
pub fn told_outside<S, H, K>()
    ensures read { (f : H → K) (address : ℕ) (p : ℕ → Piece S H) (p' : ℕ → Piece S K)
        → ((v : ℕ) → ToldPiece f (p v) (p' v)) → ToldPiece f (read_device address p) (read_device address p') }
    ensures write { (f : H → K) (address value : ℕ) → ToldPiece {S = S} f (write_device address value) (write_device address value) }
    ensures interrupt { (f : H → K) (p : ℕ → Piece S H) (p' : ℕ → Piece S K)
        → ((k : ℕ) → ToldPiece f (p k) (p' k)) → ToldPiece f (take_interrupt p) (take_interrupt p') }
    ensures idle { (f : H → K) (n : ℕ) (p : ℕ → Piece S H) (p' : ℕ → Piece S K)
        → ((k : ℕ) → ToldPiece f (p k) (p' k)) → ToldPiece f (idles n p) (idles n p') }
{}

/// Whole code follows where its steps do.
pub fn told_code<P, S, H, K>()
    ensures { (f : H → K) (r : Recorder H) (q : Recorder K) → Tells f r q
        → (test : S → Test S) (step : P → Piece S H) (step' : P → Piece S K) → ((p : P) → ToldPiece f (step p) (step' p))
        → (c : Code P) → ToldPiece f (performed r step test c) (performed q step' test c) }
{}
