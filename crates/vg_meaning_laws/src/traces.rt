// The laws of traces: what was seen stays.
ghost use Rattle.std.specs.Prelude.{ℕ};
ghost use Rattle.vg_meaning.specs.History.{Active, Recorder};
ghost use Rattle.vg_meaning.specs.Answer.{Piece, and_then};
ghost use Rattle.vg_meaning.specs.Calls.{opened, returned};
ghost use Rattle.vg_meaning.specs.Loops.{Test};
ghost use Rattle.vg_meaning.specs.Devices.{read_device, write_device};
ghost use Rattle.vg_meaning.specs.Interrupts.{idles};
ghost use Rattle.vg_meaning.specs.Code.{Code, performed};
ghost use Rattle.vg_meaning_laws.specs.Grows.{Grows};

/// What is built of pieces that only add to the trace only adds to it.
pub fn growing_pieces<S, H>()
    ensures sequence { (p q : Piece S H) → Grows p → Grows q → Grows (λ s w. and_then (p s w) q) }
    ensures read { (address : ℕ) (p : ℕ → Piece S H) → ((v : ℕ) → Grows (p v)) → Grows (read_device address p) }
    ensures write { (address value : ℕ) → Grows {S = S} {H = H} (write_device address value) }
    ensures idle { (n : ℕ) (p : ℕ → Piece S H) → ((k : ℕ) → Grows (p k)) → Grows (idles n p) }
    ensures opened { (r : Recorder H) (call : Active) (p : Piece S H) → Grows p → Grows (opened r call p) }
    ensures returned { (p q : Piece S H) → Grows p → Grows q → Grows (λ s w. returned (p s w) q) }
{}

/// Code only adds to the trace where its steps do.
pub fn growing_code<P, S, H>()
    ensures { (r : Recorder H) (test : S → Test S) (step : P → Piece S H)
        → ((p : P) → Grows (step p)) → (c : Code P) → Grows (performed r step test c) }
{}
