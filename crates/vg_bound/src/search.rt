// The tables of a search.
ghost use Rattle.std.specs.Prelude.{◌≡◌, ◌<◌, ◌≤◌, IfOk, Some, drop, length, slice_get};
ghost use Rattle.vg_bound.specs.Graph as graphs;
ghost use Rattle.vg_bound.specs.Searched.{begun, entered, left, place_of, visiting};

use crate::mark::{Mark, Visit};
use std::alloc::Global;
use std::marker::Model;
use vg_base::{NoMemory, Row};

/// A mark for each node, and the stack of the nodes whose calls are being looked at, the oldest first. The stack has room for each node.
#[derive(Drop)]
pub struct Search {
    marks: Vec<Mark>,
    stack: Vec<u16>,
    room: usize,
}

impl Model for Search {
    ghost use Rattle.std.specs.Prelude.{◌≤◌, vec_capacity};
    ghost use Rattle.vg_bound.specs.Searched.{Searched, searched};

    ghost Value = { Searched };

    ghost view = { λ s. searched s.marks.items s.stack.items s.room };

    ghost invariant = { λ s. s.room ≤ vec_capacity s.stack };
}

impl Search {
    /// A search of so many nodes, of which none was seen.
    pub fn new(alloc: Global, count: usize) -> Result<Self, NoMemory>
        ensures { IfOk result (λ s. s ≡ begun count) }
    {
        Ok(Search {
            marks: Vec::from_elem(alloc, Mark::Unseen, count)?,
            stack: Vec::with_capacity(alloc, count)?,
            room: count,
        })
    }

    /// Begins again: no node was seen.
    pub fn reset(&mut self)
        requires { self.old.room ≡ length self.old.marks }
        ensures { self.new ≡ begun (length self.old.marks) }
    {
        self.stack.clear();
        self.marks.fill(Mark::Unseen);
    }

    /// What is known of a node.
    pub fn mark_of(&self, node: u16) -> Mark
        requires { node < length self.now.marks }
        ensures { slice_get self.now.marks node ≡ Some result }
    {
        self.marks[usize::from(node)]
    }

    /// Where a node stands on the stack.
    pub fn place_of(&self, node: u16) -> Option<usize>
        ensures { result ≡ place_of (slice_get self.now.marks node) }
    {
        match self.marks.get(usize::from(node)) {
            Some(Mark::Open(visit)) => Some(visit.place),
            _ => None,
        }
    }

    /// How many nodes stand on the stack.
    pub fn height(&self) -> usize
        ensures { result ≡ length self.now.stack }
    {
        self.stack.len()
    }

    /// The node at a place on the stack.
    pub fn node_at(&self, place: usize) -> u16
        requires { place < length self.now.stack }
        ensures { slice_get self.now.stack place ≡ Some result }
    {
        self.stack[place]
    }

    /// The nodes on the stack from a place on.
    pub fn nodes_from(&self, alloc: Global, from: usize) -> Result<Row<u16>, NoMemory>
        ensures { IfOk result (λ nodes. nodes ≡ drop from self.now.stack) }
    {
        let stack = self.stack.as_slice();
        let behind = &stack[from.min(stack.len())..];
        Ok(Row::from_vec(Vec::from_slice(alloc, behind)?))
    }

    /// The node behind a place on the stack, where that goes round from its last place to the place `from`.
    pub fn behind(&self, place: usize, from: usize) -> u16
        requires within { place < length self.now.stack }
        requires from { from ≤ place }
        ensures { slice_get self.now.stack (graphs.round place from (length self.now.stack)) ≡ Some result }
    {
        self.node_at(round(place, from, self.height()))
    }

    /// Puts a node on the stack, of whose calls none was looked at.
    pub fn enter(&mut self, node: u16)
        requires within { node < length self.old.marks }
        requires room { length self.old.stack < self.old.room }
        ensures { self.new ≡ entered node self.old }
    {
        let place = self.stack.len();
        self.marks[usize::from(node)] = Mark::Open(Visit {
            place,
            next: 0,
            most: 0,
        });
        match self.stack.push(node) {
            Ok(()) => {}
            // The stack has room for each node.
            Err(_) => unreachable!(),
        }
    }

    /// Goes on with the visit of a node.
    pub fn visit(&mut self, node: u16, visit: Visit)
        requires { node < length self.old.marks }
        ensures { self.new ≡ visiting node visit self.old }
    {
        self.marks[usize::from(node)] = Mark::Open(visit);
    }

    /// Takes the newest node from the stack, from which the largest path costs so much.
    pub fn leave(&mut self, node: u16, cost: u64)
        requires { node < length self.old.marks }
        ensures { self.new ≡ left node cost self.old }
    {
        self.marks[usize::from(node)] = Mark::Done(cost);
        let _newest = self.stack.pop();
    }
}

// The place behind a place of a list of so many, which goes round from the last to the place `from`.
fn round(place: usize, from: usize, count: usize) -> usize
    requires within { place < count }
    requires from { from ≤ place }
    ensures is { result ≡ graphs.round place from count }
    ensures below { result < count }
{
    if place + 1 == count { from } else { place + 1 }
}
