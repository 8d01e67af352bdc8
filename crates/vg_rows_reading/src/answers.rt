// What is answered to the questions of the table.
ghost use Rattle.std.specs.Prelude.{◌≤◌, length};
ghost use Rattle.vg_base.specs.Limits.{text_limit};

use crate::outline::outline;
use std::alloc::Global;
use vg_base::{Names, NoMemory, NodeId, Place, Refusal, TEXT_LIMIT};
use vg_reader::{ReadFault, derive_text, read};
use vg_rows_lines::{TextLine, said, spelled};

/// The answer to the question of a line; `front` asks about the first bytes of `whole`.
pub fn answer_of(alloc: Global, line: TextLine<'_>, whole: &[u8]) -> Result<String, NoMemory> {
    match line.question {
        "kept" => return kept(alloc, line.text),
        "front" => return front(alloc, line.word, whole),
        _ => {}
    }
    let text = spelled(alloc, line.text)?;
    if text.len() > TEXT_LIMIT {
        return said(alloc, "too long");
    }
    let bytes = text.as_slice();
    match line.question {
        "text" | "whole" => reads(alloc, bytes),
        "steps" => steps(alloc, bytes),
        "tree" => tree(alloc, bytes),
        "count" => count(alloc, bytes, line.word),
        "class" => class(alloc, bytes, line.word),
        _ => said(alloc, "no such question"),
    }
}

fn placed(alloc: Global, words: &str, place: Place) -> Result<String, NoMemory> {
    let line = place.line;
    let col = place.col;
    Ok(format!(in alloc; "{words} at {line}:{col}")?)
}

fn refused(alloc: Global, refusal: Refusal<ReadFault>) -> Result<String, NoMemory> {
    match refusal {
        Refusal::Fault(ReadFault::NoTree(place)) => placed(alloc, "no tree", place),
        Refusal::Fault(ReadFault::TooDeep(place)) => placed(alloc, "too deep", place),
        Refusal::NoMemory => Err(NoMemory),
    }
}

// Whether the bytes are a text, or where they cease to be one.
fn reads(alloc: Global, bytes: &[u8]) -> Result<String, NoMemory>
    requires { length bytes.now ≤ text_limit }
{
    match derive_text(alloc, bytes) {
        Ok(_) => said(alloc, "text"),
        Err(refusal) => refused(alloc, refusal),
    }
}

// The same of the first bytes of a text, by their count.
fn front(alloc: Global, count: &str, whole: &[u8]) -> Result<String, NoMemory> {
    let Ok(count) = count.parse::<usize>() else {
        return said(alloc, "no such front");
    };
    match whole.get(..count) {
        Some(bytes) if bytes.len() <= TEXT_LIMIT => reads(alloc, bytes),
        _ => said(alloc, "no such front"),
    }
}

// The steps of the parse.
fn steps(alloc: Global, bytes: &[u8]) -> Result<String, NoMemory>
    requires { length bytes.now ≤ text_limit }
{
    let derivation = match derive_text(alloc, bytes) {
        Ok(derivation) => derivation,
        Err(refusal) => return refused(alloc, refusal),
    };
    let mut out = String::new(alloc);
    for step in derivation.steps.as_slice() {
        let word = format!(in alloc; "{step:?};")?;
        out.push_str(word.as_str())?;
    }
    Ok(out)
}

// The outline of the tree.
fn tree(alloc: Global, bytes: &[u8]) -> Result<String, NoMemory>
    requires { length bytes.now ≤ text_limit }
{
    let mut names = Names::new(alloc);
    match read(alloc, bytes, &mut names) {
        Ok(tree) => {
            let mut out = String::new(alloc);
            outline(alloc, &tree.root, &mut out)?;
            Ok(out)
        }
        Err(refusal) => refused(alloc, refusal),
    }
}

// How many statements and expressions there are at and below the node of a number.
fn count(alloc: Global, bytes: &[u8], number: &str) -> Result<String, NoMemory>
    requires { length bytes.now ≤ text_limit }
{
    let mut names = Names::new(alloc);
    match read(alloc, bytes, &mut names) {
        Ok(tree) => {
            let count = tree.count_nodes(NodeId(number.parse::<u32>().unwrap_or(0)));
            Ok(format!(in alloc; "{count}")?)
        }
        Err(refusal) => refused(alloc, refusal),
    }
}

// The number of the first class of a name, which gets its name once the tree is there.
fn class(alloc: Global, bytes: &[u8], name: &str) -> Result<String, NoMemory>
    requires { length bytes.now ≤ text_limit }
{
    let mut names = Names::new(alloc);
    let tree = match read(alloc, bytes, &mut names) {
        Ok(tree) => tree,
        Err(refusal) => return refused(alloc, refusal),
    };
    let name = names.intern(name)?;
    match tree.find_class(name) {
        Some(NodeId(number)) => Ok(format!(in alloc; "{number}")?),
        None => said(alloc, "none"),
    }
}

// What is answered to two texts that are read with the same names, where an earlier name keeps its text throughout: the name and the texts stand between bars.
fn kept(alloc: Global, field: &str) -> Result<String, NoMemory> {
    let Some((name, texts)) = field.split_once('|') else {
        return said(alloc, "no name");
    };
    let Some((first, second)) = texts.split_once('|') else {
        return said(alloc, "no second text");
    };
    if first.len() > TEXT_LIMIT || second.len() > TEXT_LIMIT {
        return said(alloc, "too long");
    }
    let mut names = Names::new(alloc);
    let id = names.intern(name)?;
    let one = match read(alloc, first.as_bytes(), &mut names) {
        Ok(_) => said(alloc, "text")?,
        Err(refusal) => refused(alloc, refusal)?,
    };
    if names.text(id) != Some(name) {
        return said(alloc, "the name is lost");
    }
    let other = match read(alloc, second.as_bytes(), &mut names) {
        Ok(_) => said(alloc, "text")?,
        Err(refusal) => refused(alloc, refusal)?,
    };
    if names.text(id) != Some(name) {
        return said(alloc, "the name is lost");
    }
    let one = one.as_str();
    let other = other.as_str();
    Ok(format!(in alloc; "{one}, then {other}")?)
}
