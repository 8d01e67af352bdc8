// The live set.
ghost use Rattle.std.specs.Prelude.{◌≡◌, slice_get};
ghost use Rattle.vg_live.specs.Sets as sets;
ghost use Rattle.vg_live.specs.Sets.{flat};

use vg_base::Row;
use vg_core::Member;

/// Why a member is live: a rule, and the members that it goes by.
#[derive(Clone, Copy, Debug, PartialEq, Eq)]
pub struct Reason {
    /// The number of the rule, from 1 to 11.
    pub rule: u8,
    /// The members by which this one is live have lower ranks.
    pub rank: usize,
    pub from: Option<Member>,
    pub also: Option<Member>,
}

/// The live members of a program and its heap: for each method, field and cell the reason, where it is live.
pub struct LiveSet {
    pub methods: Row<Option<Reason>>,
    pub fields: Row<Option<Reason>>,
    pub cells: Row<Option<Reason>>,
}

impl Drop for LiveSet {
    // By hand: a function that may drop one calls this, where it would have a copy of a derived one.
    fn drop(self) {
        let LiveSet {
            methods: _,
            fields: _,
            cells: _,
        } = self;
    }
}

impl LiveSet {
    /// The reason that is kept for a member.
    pub fn reason(&self, member: Member) -> Option<Reason>
        ensures { result ≡ sets.reason_of self.now member }
    {
        match member {
            Member::Method(method) => at(self.methods.as_slice(), usize::from(method)),
            Member::Field(field) => at(self.fields.as_slice(), field as usize),
            Member::Cell(cell) => at(self.cells.as_slice(), cell as usize),
        }
    }
}

// The reason at a place.
fn at(reasons: &[Option<Reason>], place: usize) -> Option<Reason>
    ensures { result ≡ flat (slice_get reasons.now place) }
{
    match reasons.get(place) {
        Some(reason) => *reason,
        None => None,
    }
}
