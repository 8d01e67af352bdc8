// The work list.
ghost use Rattle.std.specs.Prelude.{◌≡◌, ◌+◌, ◌<◌, ℕ, IfOk, OnOk, Some, length, slice_get};
ghost use Rattle.vg_core.specs.declared.member.Member.TheVariants as member;
ghost use Rattle.vg_core.specs.declared.program.Handler as handlers;
ghost use Rattle.vg_core.specs.HeldProgram.{program_at};
ghost use Rattle.vg_live.specs.Sets.{IsLiveSet};
ghost use Rattle.vg_reach_index.specs.Indexed.{Indexes};
ghost use Rattle.vg_reach_marks.specs.Growing.{Drawn, Goes, Sound};
ghost use Rattle.vg_reach_visits.specs.Visited.{Ready, Works};
ghost use Rattle.vg_reach.specs.Looking.{Looked, Rooted};

use std::alloc::Global;
use vg_base::NoMemory;
use vg_core::{Member, Program};
use vg_live::LiveSet;
use vg_reach_index::Index;
use vg_reach_marks::Marks;
use vg_reach_visits::{Seen, Work, visit};
use vg_shape::Store;

/// The live members of a program and a heap.
pub fn closed(alloc: Global, program: &Program, heap: &Store) -> Result<LiveSet, NoMemory>
    ensures { IfOk result (IsLiveSet (program_at program.now) heap.now) }
{
    let Ok(classes) = u16::try_from(program.tables.classes.len()) else {
        // No text has so many classes.
        return Err(NoMemory);
    };
    let index = Index::new(alloc, &program.tables, heap)?;
    let marks = roots(alloc, program, heap)?;
    let seen = Seen::new(alloc, classes)?;
    close(alloc, program, heap, &index, Work { marks, seen })
}

// Looks at each marked member once, in the order of marking.
fn close(
    alloc: Global,
    program: &Program,
    heap: &Store,
    index: &Index,
    work: Work,
) -> Result<LiveSet, NoMemory>
    requires indexed { Indexes program.now.tables heap.now index.now }
    requires ready { Ready (program_at program.now) heap.now work }
    requires rooted { Rooted (program_at program.now) heap.now work.marks }
    ensures { IfOk result (IsLiveSet (program_at program.now) heap.now) }
{
    let mut work = work;
    let mut next = 0usize;
    while next < work.marks.count() {
        look_next(alloc, program, heap, index, &mut work, next)?;
        next += 1;
    }
    Ok(work.marks.into_set())
}

// Looks at the member that was marked behind so many others.
fn look_next(
    alloc: Global,
    program: &Program,
    heap: &Store,
    index: &Index,
    work: &mut Work,
    next: usize,
) -> Result<(), NoMemory>
    requires indexed { Indexes program.now.tables heap.now index.now }
    requires classes { work.old.seen.classes ≡ length program.now.tables.classes }
    requires within { next < length work.old.marks.order }
    ensures { OnOk result (Ready (program_at program.now) heap.now work.old → Looked (program_at program.now) heap.now work.old next
        → Works (program_at program.now) heap.now work.old work.new × Looked (program_at program.now) heap.now work.new (next + 1)) }
{
    match work.marks.marked_at(next) {
        Some(member) => visit(alloc, program, heap, index, work, member),
        None => Ok(()),
    }
}

// The members that are live without a premise.
fn roots(alloc: Global, program: &Program, heap: &Store) -> Result<Marks, NoMemory>
    ensures sound { IfOk result (Sound (program_at program.now) heap.now) }
    ensures rooted { IfOk result (Rooted (program_at program.now) heap.now) }
{
    let mut marks = Marks::new(
        alloc,
        program.tables.methods.len(),
        program.tables.fields.len(),
        heap.count(),
    )?;
    marks.mark(Member::Method(program.main), 1, None, None)?;
    mark_entries(program, heap, &mut marks)?;
    Ok(marks)
}

// Marks the methods of the numbered entries.
fn mark_entries(program: &Program, heap: &Store, marks: &mut Marks) -> Result<(), NoMemory>
    ensures { OnOk result (Sound (program_at program.now) heap.now marks.old
        → Goes (program_at program.now) heap.now marks.old marks.new
        × ((i : ℕ) (e : handlers.Handler) → slice_get program.now.handlers i ≡ Some e
        → Drawn (program_at program.now) heap.now marks.new (member.Method e.method))) }
{
    for handler in program.handlers.as_slice() {
        marks.mark(Member::Method(handler.method), 2, None, None)?;
    }
    Ok(())
}
