// The laws of more clock: a run with more ticks does the same, and goes on where it was out of clock.
ghost use Rattle.std.specs.Prelude.{ℕ};
ghost use Rattle.vg_meaning.specs.History.{Active, Recorder};
ghost use Rattle.vg_meaning.specs.Answer.{Answer, Piece, and_then};
ghost use Rattle.vg_meaning.specs.Calls.{opened, returned};
ghost use Rattle.vg_meaning.specs.Loops.{Test};
ghost use Rattle.vg_meaning.specs.Devices.{read_device, write_device};
ghost use Rattle.vg_meaning.specs.Interrupts.{idles};
ghost use Rattle.vg_meaning.specs.Code.{Code, performed};
ghost use Rattle.vg_meaning_laws.specs.Grows.{Grows};
ghost use Rattle.vg_meaning_laws.specs.Longer.{Longer, LongerPiece};

/// With d ticks more, what is built of pieces that do the same does the same.
pub fn longer_pieces<S, H>()
    ensures sequence { (d : ℕ) (a b : Answer S H) (p q : Piece S H)
        → Longer d a b → LongerPiece d p q → Grows q → Longer d (and_then a p) (and_then b q) }
    ensures read { (d address : ℕ) (p q : ℕ → Piece S H)
        → ((v : ℕ) → LongerPiece d (p v) (q v)) → LongerPiece d (read_device address p) (read_device address q) }
    ensures write { (d address value : ℕ) → LongerPiece {S = S} {H = H} d (write_device address value) (write_device address value) }
    ensures idle { (d n : ℕ) (p q : ℕ → Piece S H)
        → ((k : ℕ) → LongerPiece d (p k) (q k)) → ((k : ℕ) → Grows (q k)) → LongerPiece d (idles n p) (idles n q) }
{}

/// With d ticks more, calls do the same where their bodies do.
pub fn longer_calls<S, H>()
    ensures opened { (d : ℕ) (r : Recorder H) (call : Active) (p q : Piece S H)
        → LongerPiece d p q → Grows q → LongerPiece d (opened r call p) (opened r call q) }
    ensures returned { (d : ℕ) (a b : Answer S H) (p q : Piece S H)
        → Longer d a b → LongerPiece d p q → Grows q → Longer d (returned a p) (returned b q) }
{}

/// With d ticks more, code does the same where its steps do.
pub fn longer_code<P, S, H>()
    ensures { (d : ℕ) (r : Recorder H) (test : S → Test S) (step step' : P → Piece S H)
        → ((p : P) → LongerPiece d (step p) (step' p)) → ((p : P) → Grows (step' p))
        → (c : Code P) → LongerPiece d (performed r step test c) (performed r step' test c) }
{}
