// Marks.
ghost use Rattle.std.specs.Prelude.{◌≡◌, IfOk, OnErr, OnOk, length, slice_get, slice_set, Some};
ghost use Rattle.vg_live.specs.Sets as sets;
ghost use Rattle.vg_reach_marks.specs.Growing.{Draws};
ghost use Rattle.vg_reach_marks.specs.Marked.{entry_of, nothing, with_member, with_reason};

use std::alloc::Global;
use std::marker::Model;
use vg_base::{NoMemory, Row};
use vg_core::Member;
use vg_live::{LiveSet, Reason};

/// Which members were found live so far: their reasons, and the members in the order of marking.
///
/// The rank of a reason is the place of its member in that order.
#[derive(Drop)]
pub struct Marks {
    methods: Vec<Option<Reason>>,
    fields: Vec<Option<Reason>>,
    cells: Vec<Option<Reason>>,
    order: Vec<Member>,
}

impl Model for Marks {
    ghost use Rattle.vg_reach_marks.specs.Marked.{Marked, marked};

    ghost Value = { Marked };

    ghost view = { λ m. marked m.methods.items m.fields.items m.cells.items m.order.items };
}

impl Marks {
    /// No member of so many methods, fields and cells is marked.
    pub fn new(alloc: Global, methods: usize, fields: usize, cells: usize) -> Result<Self, NoMemory>
        ensures { IfOk result (λ marks. marks ≡ nothing methods fields cells) }
    {
        Ok(Marks {
            methods: Vec::from_elem(alloc, None, methods)?,
            fields: Vec::from_elem(alloc, None, fields)?,
            cells: Vec::from_elem(alloc, None, cells)?,
            order: Vec::new(alloc),
        })
    }

    /// The reason of a member, where it is marked.
    pub fn reason(&self, member: Member) -> Option<Reason>
        ensures { result ≡ sets.reason_of self.now.set member }
    {
        match self.entry(member) {
            Some(reason) => reason,
            None => None,
        }
    }

    // What is noted of a member, where it is there.
    fn entry(&self, member: Member) -> Option<Option<Reason>>
        ensures { result ≡ entry_of self.now.set member }
    {
        match member {
            Member::Method(method) => self.methods.as_slice().get(usize::from(method)).copied(),
            Member::Field(field) => self.fields.as_slice().get(field as usize).copied(),
            Member::Cell(cell) => self.cells.as_slice().get(cell as usize).copied(),
        }
    }

    /// How many members are marked.
    pub fn count(&self) -> usize
        ensures { result ≡ length self.now.order }
    {
        self.order.len()
    }

    /// The member that was marked behind so many others.
    pub fn marked_at(&self, rank: usize) -> Option<Member>
        ensures { result ≡ slice_get self.now.order rank }
    {
        self.order.as_slice().get(rank).copied()
    }

    /// Marks a member, where it is there and has no mark, by this rule and these members.
    pub fn mark(
        &mut self,
        member: Member,
        rule: u8,
        from: Option<Member>,
        also: Option<Member>,
    ) -> Result<(), NoMemory>
        ensures { OnOk result (Draws self.old self.new member rule from also) }
    {
        match self.entry(member) {
            Some(None) => {
                let rank = self.count();
                self.push(member)?;
                self.keep(
                    member,
                    Reason {
                        rule,
                        rank,
                        from,
                        also,
                    },
                );
                Ok(())
            }
            Some(Some(_)) => Ok(()),
            None => Ok(()),
        }
    }

    // Puts a member behind those that are marked.
    fn push(&mut self, member: Member) -> Result<(), NoMemory>
        ensures { OnOk result (self.new ≡ with_member member self.old) }
    {
        self.order.push(member)?;
        Ok(())
    }

    // Keeps the reason of a member, where it is there.
    fn keep(&mut self, member: Member, reason: Reason)
        ensures { self.new ≡ with_reason member reason self.old }
    {
        match member {
            Member::Method(method) => put(&mut self.methods, usize::from(method), reason),
            Member::Field(field) => put(&mut self.fields, field as usize, reason),
            Member::Cell(cell) => put(&mut self.cells, cell as usize, reason),
        }
    }

    /// The marks as a live set. It takes no memory.
    pub fn into_set(self) -> LiveSet
        ensures { result ≡ self.set }
    {
        LiveSet {
            methods: Row::from_vec(self.methods),
            fields: Row::from_vec(self.fields),
            cells: Row::from_vec(self.cells),
        }
    }
}

// A reason at a place, where it is there.
fn put(reasons: &mut Vec<Option<Reason>>, place: usize, reason: Reason)
    ensures { reasons.new.items ≡ slice_set reasons.old.items place (Some reason) }
{
    if place < reasons.len() {
        reasons[place] = Some(reason);
    }
}
