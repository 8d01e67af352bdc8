// What a search knows of a node.
ghost use Rattle.std.specs.Prelude.{◌≡◌, ◌<◌, ◌-◌, ◌^◌};
ghost use Rattle.vg_bound.specs.Searched.{looked};

/// A visit of a node whose calls are being looked at.
#[derive(Clone, Copy)]
pub struct Visit {
    /// Its place on the stack, from 0 at the bottom.
    pub place: usize,
    /// How many of its calls were looked at.
    pub next: usize,
    /// The largest cost in bytes of a path from one of these.
    pub most: u64,
}

/// What a search knows of a node.
#[derive(Clone, Copy)]
pub enum Mark {
    /// Nothing.
    Unseen,
    /// It stands on the stack.
    Open(Visit),
    /// The largest cost in bytes of a path from it; no cycle can be reached from it.
    Done(u64),
}

impl Visit {
    /// The visit behind one more call, from which the largest path costs so much.
    pub fn behind(self, cost: u64) -> Visit
        requires { self.next < 2 ^ 64 - 1 }
        ensures { result ≡ looked cost self }
    {
        Visit {
            place: self.place,
            next: self.next + 1,
            most: self.most.max(cost),
        }
    }
}
