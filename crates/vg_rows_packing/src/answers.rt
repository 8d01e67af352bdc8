// What a line of the table asks.
use crate::bytes::bytes_text;
use crate::deepest::deepest_text;
use crate::linear::{counts_text, linear_played};
use crate::named::{dispatches_text, procedure_text, procedures_text};
use crate::packing::{Whole, packed, refused};
use crate::runs::played;
use std::alloc::Global;
use vg_base::{NoMemory, Refusal, TEXT_LIMIT};
use vg_rows_lines::{TextLine, said, spelled};

/// What the packed program of the text of a line answers to its question; or the fault of the text.
pub fn answer_of(alloc: Global, line: TextLine<'_>) -> Result<String, NoMemory> {
    let text = spelled(alloc, line.text)?;
    if text.len() > TEXT_LIMIT {
        return said(alloc, "too long");
    }
    match packed(alloc, text.as_slice()) {
        Ok(whole) => answer_by(alloc, line, &whole),
        Err(Refusal::Fault(fault)) => refused(alloc, &fault),
        Err(Refusal::NoMemory) => Err(NoMemory),
    }
}

fn answer_by(alloc: Global, line: TextLine<'_>, whole: &Whole) -> Result<String, NoMemory> {
    let (question, _) = line.question.split_once(':').unwrap_or((line.question, ""));
    match question {
        "bytes" => bytes_text(alloc, whole),
        "code" => procedure_text(alloc, whole, line.word),
        "procedures" => procedures_text(alloc, whole),
        "dispatches" => dispatches_text(alloc, whole),
        "linear" => linear_played(alloc, whole, line),
        "instructions" => counts_text(alloc, whole),
        "deepest" => deepest_text(alloc, whole),
        "run" => played(alloc, whole, line),
        _ => said(alloc, "no such question"),
    }
}
