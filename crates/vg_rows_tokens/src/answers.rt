// What is answered to the questions of the table.
ghost use Rattle.std.specs.Prelude.{◌≤◌, length};
ghost use Rattle.vg_base.specs.Limits.{text_limit};

use std::alloc::Global;
use vg_base::{NoMemory, Refusal, TEXT_LIMIT};
use vg_first_text::read_first;
use vg_grammar::{Stop, derive};
use vg_rows_lines::{TextLine, said, spelled};
use vg_scan::scan;

/// The answer to the question of a line.
pub fn answer_of(alloc: Global, line: TextLine<'_>) -> Result<String, NoMemory> {
    let text = spelled(alloc, line.text)?;
    if text.len() > TEXT_LIMIT {
        return said(alloc, "too long");
    }
    let bytes = text.as_slice();
    match line.question {
        "tokens" => tokens(alloc, bytes),
        "stop" => stop(alloc, bytes),
        "writes" => writes(alloc, bytes),
        _ => said(alloc, "no such question"),
    }
}

// The tokens, each with its kind, its place, and the offsets of its bytes.
fn tokens(alloc: Global, bytes: &[u8]) -> Result<String, NoMemory>
    requires { length bytes.now ≤ text_limit }
{
    let tokens = scan(alloc, bytes)?;
    let mut out = String::new(alloc);
    for token in tokens.as_slice() {
        let kind = token.kind;
        let line = token.place.line;
        let col = token.place.col;
        let start = token.start;
        let end = token.end;
        let word = format!(in alloc; "{kind:?} {line}:{col} {start}-{end};")?;
        out.push_str(word.as_str())?;
    }
    Ok(out)
}

// Whether the tokens are a text, or at which of them they cease to be one.
fn stop(alloc: Global, bytes: &[u8]) -> Result<String, NoMemory>
    requires { length bytes.now ≤ text_limit }
{
    let tokens = scan(alloc, bytes)?;
    match derive(alloc, tokens.as_slice()) {
        Ok(_) => said(alloc, "text"),
        Err(Refusal::Fault(stop)) => stopped(alloc, stop),
        Err(Refusal::NoMemory) => Err(NoMemory),
    }
}

fn stopped(alloc: Global, stop: Stop) -> Result<String, NoMemory> {
    match stop {
        Stop::NoTree(index) => Ok(format!(in alloc; "no tree at token {index}")?),
        Stop::TooDeep(index) => Ok(format!(in alloc; "too deep at token {index}")?),
    }
}

// The writes of a program of constants, each as its address and its value.
fn writes(alloc: Global, bytes: &[u8]) -> Result<String, NoMemory>
    requires { length bytes.now ≤ text_limit }
{
    let writes = match read_first(alloc, bytes) {
        Ok(writes) => writes,
        Err(Refusal::Fault(_)) => return said(alloc, "none"),
        Err(Refusal::NoMemory) => return Err(NoMemory),
    };
    let mut out = String::new(alloc);
    for write in writes.as_slice() {
        let address = write.address;
        let value = write.value;
        let word = format!(in alloc; "{address}={value};")?;
        out.push_str(word.as_str())?;
    }
    Ok(out)
}
