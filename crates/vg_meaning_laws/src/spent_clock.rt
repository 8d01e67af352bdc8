// The laws of the spent clock: it never rises, and a run that is out of clock has none left.
ghost use Rattle.std.specs.Prelude.{ℕ, suc, ◌≤◌};
ghost use Rattle.vg_meaning.specs.History.{Active, Recorder};
ghost use Rattle.vg_meaning.specs.Answer.{Answer, Piece, and_then};
ghost use Rattle.vg_meaning.specs.Calls.{opened, returned};
ghost use Rattle.vg_meaning.specs.Loops.{Test};
ghost use Rattle.vg_meaning.specs.Devices.{read_device, write_device};
ghost use Rattle.vg_meaning.specs.Interrupts.{idles};
ghost use Rattle.vg_meaning.specs.Code.{Code, performed};
ghost use Rattle.vg_meaning_laws.specs.Spent.{Spent, Spends};

/// What is built of pieces that spend right spends right.
pub fn spent_pieces<S, H>()
    ensures sequence { (n m : ℕ) (a : Answer S H) (p : Piece S H) → m ≤ n → Spent m a → Spends n p → Spent m (and_then a p) }
    ensures read { (n address : ℕ) (p : ℕ → Piece S H) → ((v : ℕ) → Spends n (p v)) → Spends n (read_device address p) }
    ensures write { (n address value : ℕ) → Spends {S = S} {H = H} n (write_device address value) }
    ensures idle { (n m : ℕ) (p : ℕ → Piece S H) → ((k : ℕ) → Spends n (p k)) → Spends n (idles m p) }
{}

/// A call spends right where its body does, which has one tick less.
pub fn spent_calls<S, H>()
    ensures opened { (r : Recorder H) (call : Active) (n : ℕ) (p : Piece S H) → Spends n p → Spends (suc n) (opened r call p) }
    ensures returned { (n m : ℕ) (a : Answer S H) (p : Piece S H) → m ≤ n → Spent m a → Spends n p → Spent m (returned a p) }
{}

/// Code spends right where its steps do.
pub fn spent_code<P, S, H>()
    ensures { (r : Recorder H) (n : ℕ) (test : S → Test S) (step : P → Piece S H) → ((p : P) → Spends n (step p))
        → (c : Code P) → Spends n (performed r step test c) }
{}
