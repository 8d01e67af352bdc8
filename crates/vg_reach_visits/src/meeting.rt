// Sites meet classes.
ghost use Rattle.std.specs.Prelude.{◌≡◌, ◌<◌, ℕ, OnOk, Some, slice_get};
ghost use Rattle.vg_core.specs.declared.member.Member.TheVariants as member;
ghost use Rattle.vg_core.specs.HeldProgram.{program_at};
ghost use Rattle.vg_core.specs.Heap.{class_in};
ghost use Rattle.vg_live.specs.Sets.{IsIn};
ghost use Rattle.vg_reach_index.specs.Indexed.{AreRows};
ghost use Rattle.vg_reach_marks.specs.Growing.{Goes, Sound};
ghost use Rattle.vg_reach_visits.specs.declared.seen.Site as sites;
ghost use Rattle.vg_reach_visits.specs.Visited.{first_at, FoundDone, HasFirst, HasSite, IsSeen, IsSite, Ready, Works};

use crate::seen::{Seen, Site, Work};
use vg_base::NoMemory;
use vg_core::{Member, Program};
use vg_reach_index::Index;
use vg_reach_marks::Marks;
use vg_shape::Store;

// Marks what an object of a class finds at a site.
fn meet(
    program: &Program,
    heap: &Store,
    index: &Index,
    marks: &mut Marks,
    site: Site,
    class: u16,
    cell: u32,
) -> Result<(), NoMemory>
    requires { AreRows program.now.tables index.now.classes }
    ensures { OnOk result (Sound (program_at program.now) heap.now marks.old → IsSite (program_at program.now) site
        → IsIn marks.old.set (member.Method site.method) → class_in (slice_get heap.now.cells cell) ≡ Some class → IsIn marks.old.set (member.Cell cell)
        → Goes (program_at program.now) heap.now marks.old marks.new × FoundDone (program_at program.now) heap.now marks.new site.class site.selector class) }
{
    match index.finds(&program.tables, class, site.class, site.selector) {
        Some(method) => marks.mark(
            Member::Method(method),
            4,
            Some(Member::Method(site.method)),
            Some(Member::Cell(cell)),
        ),
        None => Ok(()),
    }
}

// Marks what the objects of a class that were looked at find at a site.
fn meet_class(
    program: &Program,
    heap: &Store,
    index: &Index,
    marks: &mut Marks,
    seen: &Seen,
    site: Site,
    class: u16,
) -> Result<(), NoMemory>
    requires { AreRows program.now.tables index.now.classes }
    ensures { OnOk result (Sound (program_at program.now) heap.now marks.old → IsSeen (program_at program.now) heap.now marks.old seen.now
        → IsSite (program_at program.now) site → IsIn marks.old.set (member.Method site.method)
        → Goes (program_at program.now) heap.now marks.old marks.new
        × ((k : ℕ) → first_at seen.now class ≡ Some k → FoundDone (program_at program.now) heap.now marks.new site.class site.selector class)) }
{
    match seen.first(class) {
        Some(cell) => meet(program, heap, index, marks, site, class, cell),
        None => Ok(()),
    }
}

// Marks what the objects that were looked at find at a site.
fn meet_classes(
    program: &Program,
    heap: &Store,
    index: &Index,
    marks: &mut Marks,
    seen: &Seen,
    site: Site,
) -> Result<(), NoMemory>
    requires { AreRows program.now.tables index.now.classes }
    ensures { OnOk result (Sound (program_at program.now) heap.now marks.old → IsSeen (program_at program.now) heap.now marks.old seen.now
        → IsSite (program_at program.now) site → IsIn marks.old.set (member.Method site.method)
        → Goes (program_at program.now) heap.now marks.old marks.new
        × ((d k : ℕ) → first_at seen.now d ≡ Some k → FoundDone (program_at program.now) heap.now marks.new site.class site.selector d)) }
{
    for class in 0..seen.classes {
        meet_class(program, heap, index, marks, seen, site, class)?;
    }
    Ok(())
}

/// Marks what the objects that were looked at find at a site, and keeps the site.
pub fn meet_site(
    program: &Program,
    heap: &Store,
    index: &Index,
    work: &mut Work,
    site: Site,
) -> Result<(), NoMemory>
    requires { AreRows program.now.tables index.now.classes }
    ensures { OnOk result (Ready (program_at program.now) heap.now work.old → IsSite (program_at program.now) site
        → IsIn work.old.marks.set (member.Method site.method)
        → Works (program_at program.now) heap.now work.old work.new × HasSite work.new.seen site.class site.selector) }
{
    meet_classes(program, heap, index, &mut work.marks, &work.seen, site)?;
    work.seen.put_site(site)
}

// Marks what an object finds at the sites of the methods that were looked at.
fn meet_sites(
    program: &Program,
    heap: &Store,
    index: &Index,
    marks: &mut Marks,
    seen: &Seen,
    class: u16,
    cell: u32,
) -> Result<(), NoMemory>
    requires { AreRows program.now.tables index.now.classes }
    ensures { OnOk result (Sound (program_at program.now) heap.now marks.old → IsSeen (program_at program.now) heap.now marks.old seen.now
        → class_in (slice_get heap.now.cells cell) ≡ Some class → IsIn marks.old.set (member.Cell cell)
        → Goes (program_at program.now) heap.now marks.old marks.new
        × ((i : ℕ) (s : sites.Site) → slice_get seen.now.sites.items i ≡ Some s
        → FoundDone (program_at program.now) heap.now marks.new s.class s.selector class)) }
{
    for site in seen.sites.as_slice() {
        meet(program, heap, index, marks, *site, class, cell)?;
    }
    Ok(())
}

/// Marks what an object finds at the sites of the methods that were looked at, and keeps it, where it is the first of its class.
pub fn meet_first(
    program: &Program,
    heap: &Store,
    index: &Index,
    work: &mut Work,
    class: u16,
    cell: u32,
) -> Result<(), NoMemory>
    requires { AreRows program.now.tables index.now.classes }
    ensures { OnOk result (Ready (program_at program.now) heap.now work.old → class_in (slice_get heap.now.cells cell) ≡ Some class
        → IsIn work.old.marks.set (member.Cell cell)
        → Works (program_at program.now) heap.now work.old work.new × (class < work.old.seen.classes → HasFirst work.new.seen class)) }
{
    match work.seen.first(class) {
        Some(_) => Ok(()),
        None => {
            meet_sites(
                program,
                heap,
                index,
                &mut work.marks,
                &work.seen,
                class,
                cell,
            )?;
            work.seen.put_first(class, cell);
            Ok(())
        }
    }
}
