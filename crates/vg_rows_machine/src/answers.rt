// What is answered to the questions of the table.
use crate::runs::{cut, lowest, run};
use avr_instr::{decode, encode};
use std::alloc::Global;
use vg_base::NoMemory;
use vg_rows_lines::{TextLine, said};

/// The answer to the question of a line.
pub fn answer_of(alloc: Global, line: TextLine<'_>) -> Result<String, NoMemory> {
    match line.question {
        "spells" => spells(alloc, line.text),
        "run" => run(alloc, line.word, line.text),
        "lowest" => lowest(alloc, line.word, line.text),
        "cut" => cut(alloc, line.word, line.text),
        _ => said(alloc, "no such question"),
    }
}

// The instruction that two words spell, where its own spelling is these words.
fn spells(alloc: Global, field: &str) -> Result<String, NoMemory> {
    let mut words = field.split_whitespace();
    let first = words.next().and_then(number);
    let next = words.next().and_then(number);
    let (Some(word), Some(next)) = (first, next) else {
        return said(alloc, "no words");
    };
    let Some(instr) = decode(word, next) else {
        return said(alloc, "nothing");
    };
    let (first, second) = encode(instr);
    if first != word || second.unwrap_or(next) != next {
        return said(alloc, "spelled otherwise");
    }
    Ok(format!(in alloc; "{instr:?}")?)
}

fn number(digits: &str) -> Option<u16> {
    u16::from_str_radix(digits, 16).ok()
}
