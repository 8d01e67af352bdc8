// The search in depth.
ghost use Rattle.std.specs.Prelude.{◌≡◌, ◌<◌, ◌-◌, ◌^◌, [], OnSome, Some, get_or, length, slice_get};
ghost use Rattle.vg_bound.specs.declared.mark.Mark.TheVariants as mark;
ghost use Rattle.vg_bound.specs.Searching.{IsFound, IsSearching, IsShaped, IsStep, IsTop};

use crate::mark::{Mark, Visit};
use crate::search::Search;
use vg_base::Row;

/// What is found from a root: the largest cost in bytes of a path from it, or the place on the stack at which a cycle begins.
#[derive(Clone, Copy)]
pub enum Found {
    Cost(u64),
    Closed(usize),
}

/// Searches from a root.
pub fn search_from(frames: &[u32], calls: &[Row<u16>], search: &mut Search, root: u16) -> Found
    requires shaped { IsShaped frames.now calls.now }
    requires searching { IsSearching frames.now calls.now search.old }
    requires begins { search.old.stack ≡ [] }
    requires within { root < length frames.now }
    ensures searching { IsSearching frames.now calls.now search.new }
    ensures found { IsFound frames.now calls.now root search.new result }
{
    loop {
        match search.mark_of(root) {
            Mark::Done(cost) => return Found::Cost(cost),
            Mark::Unseen => search.enter(root),
            Mark::Open(_) => match step(frames, calls, search) {
                Some(place) => return Found::Closed(place),
                None => {}
            },
        }
    }
}

// One step of the node on top of the stack; where it closes a cycle, the place on the stack at which that begins.
fn step(frames: &[u32], calls: &[Row<u16>], search: &mut Search) -> Option<usize>
    requires shaped { IsShaped frames.now calls.now }
    requires searching { IsSearching frames.now calls.now search.old }
    requires some { 0 < length search.old.stack }
    ensures { IsStep frames.now calls.now search.old search.new result }
{
    let node = search.node_at(search.height() - 1);
    match search.mark_of(node) {
        Mark::Open(visit) => look(frames, calls, search, node, visit),
        // What stands on the stack is open.
        _ => unreachable!(),
    }
}

// Looks at the next call of the node on top of the stack, or leaves it.
fn look(
    frames: &[u32],
    calls: &[Row<u16>],
    search: &mut Search,
    node: u16,
    visit: Visit,
) -> Option<usize>
    requires shaped { IsShaped frames.now calls.now }
    requires searching { IsSearching frames.now calls.now search.old }
    requires top { IsTop search.old.stack node }
    requires open_ { slice_get search.old.marks node ≡ Some (mark.Open visit) }
    ensures { IsStep frames.now calls.now search.old search.new result }
{
    match call_of(calls, node, visit.next) {
        Some(target) => match search.mark_of(target) {
            Mark::Unseen => search.enter(target),
            Mark::Open(other) => return Some(other.place),
            Mark::Done(cost) => search.visit(node, visit.behind(cost)),
        },
        None => search.leave(node, visit.most + u64::from(frames[usize::from(node)])),
    }
    None
}

// The node to which the edge of this number from a node goes, counted from 0.
fn call_of(calls: &[Row<u16>], node: u16, number: usize) -> Option<u16>
    requires { node < length calls.now }
    ensures is { result ≡ slice_get (get_or calls.now node []) number }
    ensures few { OnSome result (number < 2 ^ 64 - 1) }
{
    let row = calls[usize::from(node)].as_slice();
    if number < row.len() {
        Some(row[number])
    } else {
        None
    }
}
