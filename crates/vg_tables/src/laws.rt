// The law of bytes.
ghost use Rattle.std.specs.Prelude.{◌≡◌, ◌<◌, ◌^◌, ℕ};
ghost use Rattle.vg_codes.specs.Codes.{Codes, delegate};
ghost use Rattle.vg_tables.specs.Bytes.{delegate_bytes, low_bytes, number_of};

/// The bytes of a number that they hold are those of the number, and the bytes of a delegate, whose receiver has two,
/// are those of the delegate. The body is empty: its contract is a law of the definitions.
pub fn bytes_hold_entries()
    ensures numbers { (k : Codes) (width n : ℕ) → n < 256 ^ width → number_of k (low_bytes width n) ≡ n }
    ensures delegates { (k : Codes) (q r : ℕ) → r < 65536 → number_of k (delegate_bytes q r) ≡ delegate k q r }
{}
