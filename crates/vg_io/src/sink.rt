// A sink for bytes.
ghost use Rattle.std.specs.Prelude.{◌≡◌, ℕ, ◌≤◌, List, Option, OnOk, OnErr};

/// A put that went wrong. The sink's count of faults rose.
#[derive(Clone, Copy, Debug, PartialEq, Eq)]
pub struct Failed;

/// A place that takes bytes.
pub trait Sink {
    ghost use Rattle.vg_io.specs.Count.{Rose};
    ghost use Rattle.vg_io.specs.Piece.{AppendsAll, AppendsFront};

    /// The bytes taken so far, where the sink tells what it took.
    ghost told: { Self → Option (List ℕ) };

    /// How often the sink has failed.
    ghost faults: { Self → ℕ };

    /// Takes a piece whole, or fails behind a front of it, which was taken then. It takes no memory.
    fn put(&mut self, piece: &[u8]) -> Result<(), Failed>
        ensures ok { OnOk result (AppendsAll (told self.old) (told self.new) piece.now) }
        ensures failed { OnErr result (AppendsFront (told self.old) (told self.new) piece.now) }
        ensures later { faults self.old ≤ faults self.new }
        ensures cause { OnErr result (Rose (faults self.old) (faults self.new)) };
}
