// Questions about call graphs.
ghost use Rattle.std.specs.Prelude.{◌≡◌, ◌<◌, ◌≤◌, IfSome, IsTrue, OnOk, length, sum};

use std::alloc::Global;
use vg_base::NoMemory;
use vg_bound::{Bound, CallGraph, bound};
use vg_rows_lines::said;

/// The bound of the graph that these words spell, or its kept cycle from its least node on.
///
/// `9` is a node of so many bytes, `4000*9` are so many nodes; `0-1` is an edge and `chain` are the edges from each node to the next;
/// `0+4` is a root with so many bytes below it. Nodes come first.
pub fn bound_of(alloc: Global, words: &str) -> Result<String, NoMemory> {
    let frames = frames_of(alloc, words)?;
    if !is_small(frames.as_slice()) {
        return said(alloc, "too large");
    }
    let mut graph = CallGraph::new(alloc, frames.as_slice())?;
    let Ok(count) = u16::try_from(frames.len()) else {
        return said(alloc, "too large");
    };
    put_words(&mut graph, words, count)?;
    match bound(&mut graph) {
        Bound::Bytes(bytes) => Ok(format!(in alloc; "bytes {bytes}")?),
        Bound::Cycle(node) => cycle_from(alloc, &graph, node),
    }
}

// Adds what words spell.
fn put_words(graph: &mut CallGraph, words: &str, count: u16) -> Result<(), NoMemory>
    requires { count ≤ length graph.old.frames }
{
    for word in words.split_whitespace() {
        put_word(graph, word, count)?;
    }
    Ok(())
}

// The frames that words spell.
fn frames_of(alloc: Global, words: &str) -> Result<Vec<u32>, NoMemory> {
    let mut frames = Vec::new(alloc);
    for word in words.split_whitespace() {
        let (count, bytes) = word.split_once('*').unwrap_or(("1", word));
        let (Ok(count), Ok(bytes)) = (count.parse::<u16>(), bytes.parse::<u32>()) else {
            continue;
        };
        for _ in 0..count {
            frames.push(bytes)?;
        }
    }
    Ok(frames)
}

// Whether a call graph takes these frames.
fn is_small(frames: &[u32]) -> bool
    ensures few { IsTrue result → length frames.now ≤ 4000 }
    ensures small { IsTrue result → sum frames.now ≤ 1000000000 }
{
    if frames.len() > 4000 {
        return false;
    }
    let mut total = 0u64;
    for bytes in frames {
        total += u64::from(*bytes);
        if total > 1_000_000_000 {
            return false;
        }
    }
    true
}

// Adds what a word spells, where it is no frame.
fn put_word(graph: &mut CallGraph, word: &str, count: u16) -> Result<(), NoMemory>
    requires { count ≤ length graph.old.frames }
    ensures { OnOk result (graph.new.frames ≡ graph.old.frames) }
{
    if word == "chain" {
        return put_steps(graph, 1, count);
    }
    if word == "ladder" {
        put_steps(graph, 1, count)?;
        return put_steps(graph, 2, count);
    }
    if let Some((from, to)) = word.split_once('-') {
        return put_edge(graph, node_of(from, count), node_of(to, count));
    }
    if let Some((node, extra)) = word.split_once('+') {
        return put_root(
            graph,
            node_of(node, count),
            extra.parse::<u32>().unwrap_or(0),
        );
    }
    Ok(())
}

// A node below this count.
fn node_of(word: &str, count: u16) -> Option<u16>
    ensures { IfSome result (λ node. node < count) }
{
    match word.parse::<u16>() {
        Ok(node) if node < count => Some(node),
        _ => None,
    }
}

// Adds an edge, where both nodes are there.
fn put_edge(graph: &mut CallGraph, from: Option<u16>, to: Option<u16>) -> Result<(), NoMemory>
    requires from { IfSome from (λ node. node < length graph.old.frames) }
    requires to { IfSome to (λ node. node < length graph.old.frames) }
    ensures { OnOk result (graph.new.frames ≡ graph.old.frames) }
{
    match (from, to) {
        (Some(from), Some(to)) => graph.edge(from, to),
        _ => Ok(()),
    }
}

// Adds a root, where the node is there and the bytes are few.
fn put_root(graph: &mut CallGraph, node: Option<u16>, extra: u32) -> Result<(), NoMemory>
    requires { IfSome node (λ node. node < length graph.old.frames) }
    ensures { OnOk result (graph.new.frames ≡ graph.old.frames) }
{
    match node {
        Some(node) if extra <= 1_000_000_000 => graph.root(node, extra),
        _ => Ok(()),
    }
}

// Adds the edges from each node to the one that stands so far behind it.
fn put_steps(graph: &mut CallGraph, distance: u16, count: u16) -> Result<(), NoMemory>
    requires { count ≤ length graph.old.frames }
    ensures { OnOk result (graph.new.frames ≡ graph.old.frames) }
{
    for to in distance..count {
        graph.edge(to - distance, to)?;
    }
    Ok(())
}

// The nodes of the kept cycle, from its least one on; at most eight of them, and how many they are.
fn cycle_from(alloc: Global, graph: &CallGraph, node: u16) -> Result<String, NoMemory> {
    let least = least_on(graph, node);
    let mut text = String::from_str(alloc, "cycle")?;
    let mut at = least;
    let mut count = 0u32;
    for _ in 0..4000u16 {
        if count < 8 {
            let word = format!(in alloc; " {at}")?;
            text.push_str(word.as_str())?;
        }
        count = count.saturating_add(1);
        match graph.follow(at) {
            Some(next) if next != least => at = next,
            Some(_) => {
                let word = format!(in alloc; " of {count}")?;
                text.push_str(word.as_str())?;
                return Ok(text);
            }
            None => break,
        }
    }
    said(alloc, "no way round")
}

// The least node on the kept cycle.
fn least_on(graph: &CallGraph, node: u16) -> u16 {
    let mut least = node;
    let mut at = node;
    for _ in 0..4000u16 {
        match graph.follow(at) {
            Some(next) => at = next,
            None => break,
        }
        least = least.min(at);
    }
    least
}
