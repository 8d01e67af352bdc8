// The call graph.
ghost use Rattle.std.specs.Prelude.{◌≡◌, ◌↔◌, ◌<◌, ◌≤◌, ◌^◌, [], IfOk, IfSome, None, OnErr, OnOk, length, replicate, sum};
ghost use Rattle.vg_bound.specs.Graph.{of_parts, with_edge, with_root, without_edges, HasCycle, IsBound, IsCycle, IsNext, IsOn, IsSameGraph};
ghost use Rattle.vg_bound.specs.Kept.{graph, IsOutcome};
ghost use Rattle.vg_bound.specs.Searching.{AreRoots, IsSearching, IsShaped};

use crate::answer::Bound;
use crate::root::Root;
use crate::search::Search;
use crate::walk::{Found, search_from};
use std::alloc::Global;
use std::marker::Model;
use vg_base::{NoMemory, Row};

/// Nodes with the bytes of their frames, the edges between them, and the roots from which paths begin; and the cycle that `bound` kept.
///
/// At most 65,536 nodes, whose frames have together at most 2 ^ 48 bytes.
#[derive(Drop)]
pub struct CallGraph {
    frames: Row<u32>,
    calls: Vec<Row<u16>>,
    roots: Row<Root>,
    search: Search,
    /// Where on the stack of the search the kept cycle begins.
    from: usize,
}

impl Model for CallGraph {
    ghost use Rattle.vg_bound.specs.Graph.{Graph};
    ghost use Rattle.vg_bound.specs.Kept.{graph, IsSound};

    ghost Value = { Graph };

    ghost view = { λ g. graph g.frames g.calls.items g.roots g.search g.from };

    ghost invariant = { λ g. IsSound g.frames g.calls.items g.roots g.search };
}

impl CallGraph {
    /// A node for each of these frames, in bytes, and no edge and no root. All memory that `bound` needs is taken here.
    pub fn new(alloc: Global, frames: &[u32]) -> Result<Self, NoMemory>
        requires few { length frames.now ≤ 65536 }
        requires small { sum frames.now ≤ 2 ^ 48 }
        ensures { IfOk result (λ g. g ≡ without_edges frames.now) }
    {
        let count = frames.len();
        let search = Search::new(alloc, count)?;
        let calls = no_calls(alloc, count)?;
        Ok(CallGraph {
            frames: Row::from_vec(Vec::from_slice(alloc, frames)?),
            calls,
            roots: Row::new(alloc),
            search,
            from: 0,
        })
    }

    /// The graph of these frames, in bytes, edges and roots. All memory that `bound` needs is taken here.
    pub fn of_parts(
        alloc: Global,
        frames: Row<u32>,
        calls: Vec<Row<u16>>,
        roots: Row<Root>,
    ) -> Result<Self, NoMemory>
        requires shaped { IsShaped frames calls.items }
        requires roots { AreRoots frames roots }
        ensures { IfOk result (λ g. g ≡ of_parts frames calls.items roots) }
    {
        let search = Search::new(alloc, frames.len())?;
        Ok(CallGraph {
            frames,
            calls,
            roots,
            search,
            from: 0,
        })
    }

    /// Adds an edge: the node `from` calls the node `to`. Without memory the graph stays as it was.
    pub fn edge(&mut self, from: u16, to: u16) -> Result<(), NoMemory>
        requires from { from < length self.old.frames }
        requires to { to < length self.old.frames }
        ensures ok { OnOk result (self.new ≡ with_edge from to self.old) }
        ensures err { OnErr result (self.new ≡ self.old) }
    {
        self.calls[usize::from(from)].push(to)
    }

    /// Adds a root: a node from which paths begin, with `extra` bytes below its frame. Without memory the graph stays as it was.
    pub fn root(&mut self, node: u16, extra: u32) -> Result<(), NoMemory>
        requires { node < length self.old.frames }
        ensures ok { OnOk result (self.new ≡ with_root (record { node = node; extra = extra }) self.old) }
        ensures err { OnErr result (self.new ≡ self.old) }
    {
        self.roots.push(Root { node, extra })
    }

    /// The nodes of the kept cycle.
    pub fn kept(&self, alloc: Global) -> Result<Row<u16>, NoMemory>
        ensures { IfOk result (λ nodes. nodes ≡ self.now.kept) }
    {
        self.search.nodes_from(alloc, self.from)
    }

    /// The node behind this one on the kept cycle; none exactly where the node is not on it. It takes no memory.
    pub fn follow(&self, node: u16) -> Option<u16>
        ensures next { IfSome result (IsNext self.now.kept node) }
        ensures none { (result ≡ None) ↔ (IsOn self.now.kept node → ⊥) }
    {
        match self.search.place_of(node) {
            Some(place) => {
                if place < self.from {
                    return None;
                }
                Some(self.search.behind(place, self.from))
            }
            None => None,
        }
    }
}

/// The largest sum of frames in bytes on a path from a root, with the bytes below that root, or 0 where there is no root. Where a root
/// reaches a cycle, one is kept, and the answer is a node on it: `follow` from there passes each node of it and comes back.
///
/// It takes no memory, and its time is linear in nodes and edges.
pub fn bound(graph: &mut CallGraph) -> Bound
    ensures gives { IsBound graph.new result }
    ensures exactly { IsCycle result ↔ HasCycle graph.new }
    ensures stays { IsSameGraph graph.old graph.new }
{
    graph.search.reset();
    graph.from = 0;
    match largest(
        graph.frames.as_slice(),
        graph.calls.as_slice(),
        graph.roots.as_slice(),
        &mut graph.search,
    ) {
        Found::Cost(bytes) => Bound::Bytes(bytes),
        Found::Closed(place) => {
            graph.from = place;
            Bound::Cycle(graph.search.node_at(place))
        }
    }
}

// The largest sum over all roots; or the place on the stack of the search at which a cycle begins.
fn largest(frames: &[u32], calls: &[Row<u16>], roots: &[Root], search: &mut Search) -> Found
    requires shaped { IsShaped frames.now calls.now }
    requires roots { AreRoots frames.now roots.now }
    requires searching { IsSearching frames.now calls.now search.old }
    requires begins { search.old.stack ≡ [] }
    ensures searching { IsSearching frames.now calls.now search.new }
    ensures outcome { IsOutcome frames.now calls.now roots.now search.new result }
{
    let mut most = 0u64;
    for root in roots {
        match search_from(frames, calls, search, root.node) {
            Found::Cost(cost) => most = most.max(u64::from(root.extra) + cost),
            Found::Closed(place) => return Found::Closed(place),
        }
    }
    Found::Cost(most)
}

// So many nodes without an edge.
fn no_calls(alloc: Global, count: usize) -> Result<Vec<Row<u16>>, NoMemory>
    ensures { IfOk result (λ rows. rows.items ≡ replicate count []) }
{
    let mut rows = Vec::new(alloc);
    for _node in 0..count {
        rows.push(Row::new(alloc))?;
    }
    Ok(rows)
}
