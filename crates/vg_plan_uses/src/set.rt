// Sets of procedures.
ghost use Rattle.std.specs.Prelude.{◌≡◌, ◌&&◌, ◌++◌, ◌∷◌, [], IfOk, OnOk, false, length, map, nat_lt, not, replicate, slice_set, true};
ghost use Rattle.vg_firm.specs.Session.{is_among};
ghost use Rattle.vg_plan_uses.specs.Sets as sets;
ghost use Rattle.vg_plan_uses.specs.Sets.{one_of, procedure_in, with_all, with_procedure, IsSet};

use std::alloc::Global;
use std::marker::Model;
use vg_base::{NoMemory, Row};
use vg_codes::Case;

/// A set of procedures, in the order in which they were put in; of each procedure of the program whether it is in it.
#[derive(Drop)]
pub struct ProcedureSet {
    marks: Vec<bool>,
    list: Row<u16>,
}

impl Model for ProcedureSet {
    ghost use Rattle.vg_plan_uses.specs.Sets.{ProcedureSet, set_of};

    ghost Value = { ProcedureSet };

    ghost view = { λ s. set_of s.marks.items s.list };
}

impl ProcedureSet {
    /// No procedure of a program that has so many.
    pub fn new(alloc: Global, room: usize) -> Result<Self, NoMemory>
        ensures is { IfOk result IsSet }
        ensures empty { IfOk result (λ s. s ≡ sets.set_of (replicate room false) []) }
    {
        Ok(ProcedureSet {
            marks: Vec::from_elem(alloc, false, room)?,
            list: Row::new(alloc),
        })
    }

    /// Puts in a procedure of the program.
    pub fn note(&mut self, procedure: u16) -> Result<(), NoMemory>
        requires { IsSet self.old }
        ensures is { OnOk result (IsSet self.new) }
        ensures room { OnOk result (length self.new.marks ≡ length self.old.marks) }
        ensures list { OnOk result (self.new.list ≡ with_procedure (length self.old.marks) self.old.list procedure) }
    {
        if self.lacks(procedure) {
            self.add(procedure)
        } else {
            Ok(())
        }
    }

    // Whether a procedure of the program is not in it.
    fn lacks(&self, procedure: u16) -> bool
        requires { IsSet self.now }
        ensures { result ≡ nat_lt procedure (length self.now.marks) && not (is_among self.now.list procedure) }
    {
        match self.marks.as_slice().get(usize::from(procedure)) {
            Some(mark) => !*mark,
            None => false,
        }
    }

    // Puts in a procedure that is not in it.
    fn add(&mut self, procedure: u16) -> Result<(), NoMemory>
        requires set { IsSet self.old }
        requires within { (nat_lt procedure (length self.old.marks) && not (is_among self.old.list procedure)) ≡ true }
        ensures is { OnOk result (IsSet self.new) }
        ensures room { OnOk result (length self.new.marks ≡ length self.old.marks) }
        ensures list { OnOk result (self.new.list ≡ self.old.list ++ procedure ∷ []) }
    {
        self.list.push(procedure)?;
        mark(&mut self.marks, usize::from(procedure));
        Ok(())
    }

    /// Puts in a procedure, where there is one.
    pub fn note_if(&mut self, procedure: Option<u16>) -> Result<(), NoMemory>
        requires { IsSet self.old }
        ensures is { OnOk result (IsSet self.new) }
        ensures room { OnOk result (length self.new.marks ≡ length self.old.marks) }
        ensures list { OnOk result (self.new.list ≡ with_all (length self.old.marks) self.old.list (one_of procedure)) }
    {
        match procedure {
            Some(found) => self.note(found),
            None => Ok(()),
        }
    }

    /// Puts in the procedures of these cases.
    pub fn note_cases(&mut self, cases: &[Case]) -> Result<(), NoMemory>
        requires { IsSet self.old }
        ensures is { OnOk result (IsSet self.new) }
        ensures room { OnOk result (length self.new.marks ≡ length self.old.marks) }
        ensures list { OnOk result (self.new.list ≡ with_all (length self.old.marks) self.old.list (map procedure_in cases.now)) }
    {
        for case in cases {
            self.note(case.procedure)?;
        }
        Ok(())
    }

    /// Whether a procedure of the program is in it.
    pub fn has(&self, procedure: u16) -> bool
        requires { IsSet self.now }
        ensures { result ≡ nat_lt procedure (length self.now.marks) && is_among self.now.list procedure }
    {
        match self.marks.as_slice().get(usize::from(procedure)) {
            Some(mark) => *mark,
            None => false,
        }
    }

    /// The procedures. It takes no memory.
    pub fn into_list(self) -> Row<u16>
        ensures { result ≡ self.list }
    {
        self.list
    }
}

// Sets a mark that is there.
fn mark(marks: &mut Vec<bool>, place: usize)
    ensures { marks.new.items ≡ slice_set marks.old.items place true }
{
    if place < marks.len() {
        marks[place] = true;
    }
}
