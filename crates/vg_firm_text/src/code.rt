// Code as text.
use crate::steps::put_step;
use std::alloc::Global;
use vg_base::NoMemory;
use vg_firm::Code;

/// Puts a code behind a text, with a space before each of its words. A choice takes a truth value and is `if{ } else{ }`; an arm is its condition and such a choice,
/// whose `else` holds the arms behind it; a loop is `loop{` condition `} do{` body `} next{` what is done behind the body `}`. Rows leave no mark.
#[cycle(showing)]
pub fn put_code(alloc: Global, text: &mut String, code: &Code) -> Result<(), NoMemory> {
    match code {
        Code::Row(codes) => put_codes(alloc, text, codes.as_slice()),
        Code::Do(step) => put_step(alloc, text, *step),
        Code::If(first, rest) => {
            put_group(alloc, text, " if{", first)?;
            put_group(alloc, text, " } else{", rest)?;
            put_words(text, " }")
        }
        Code::Arms(codes, last) => {
            put_arms(alloc, text, codes.as_slice())?;
            put_code(alloc, text, last)?;
            put_ends(text, codes.as_slice())
        }
        Code::Arm(condition, block) => {
            put_code(alloc, text, condition)?;
            put_group(alloc, text, " if{", block)?;
            put_words(text, " } else{ }")
        }
        Code::Loop(condition, body, next) => {
            put_group(alloc, text, " loop{", condition)?;
            put_group(alloc, text, " } do{", body)?;
            put_group(alloc, text, " } next{", next)?;
            put_words(text, " }")
        }
        Code::Break => put_words(text, " break"),
        Code::Continue => put_words(text, " continue"),
        Code::Return => put_words(text, " return"),
    }
}

// Puts words, and a code.
#[cycle(showing)]
fn put_group(alloc: Global, text: &mut String, words: &str, code: &Code) -> Result<(), NoMemory> {
    put_words(text, words)?;
    put_code(alloc, text, code)
}

// Puts codes, one behind another.
#[cycle(showing)]
fn put_codes(alloc: Global, text: &mut String, codes: &[Code]) -> Result<(), NoMemory> {
    for code in codes {
        put_code(alloc, text, code)?;
    }
    Ok(())
}

// Puts arms, and codes that are none.
#[cycle(showing)]
fn put_arms(alloc: Global, text: &mut String, codes: &[Code]) -> Result<(), NoMemory> {
    for code in codes {
        put_open(alloc, text, code)?;
    }
    Ok(())
}

// Puts an arm, or a code that is none. What is done where the condition of the arm does not hold is left open.
#[cycle(showing)]
fn put_open(alloc: Global, text: &mut String, code: &Code) -> Result<(), NoMemory> {
    match code {
        Code::Arm(condition, block) => {
            put_code(alloc, text, condition)?;
            put_group(alloc, text, " if{", block)?;
            put_words(text, " } else{")
        }
        _ => put_code(alloc, text, code),
    }
}

// Ends what stands behind each arm of a row.
fn put_ends(text: &mut String, codes: &[Code]) -> Result<(), NoMemory> {
    for code in codes {
        if let Code::Arm(_, _) = code {
            put_words(text, " }")?;
        }
    }
    Ok(())
}

fn put_words(text: &mut String, words: &str) -> Result<(), NoMemory> {
    text.push_str(words)?;
    Ok(())
}
