// The script of a text.
ghost use Rattle.std.specs.Prelude.{◌≡◌, ◌≤◌, ◌+◌, ◌++◌, ℕ, List, [], length, Option, Some, None, IfOk};
ghost use Rattle.vg_base.specs.Limits.{image_text_limit};
ghost use Rattle.vg_meaning.specs.Outside.{AreReads, AreVectors};
ghost use Rattle.vg_script.specs.Script.{IsScript, first_bad, interrupts_in, line_of, one_digit, reads_in, some, spaced_pair, two_digits};
ghost use Rattle.vg_script.specs.Walk.{Takes, TakesLine, first_interrupt, first_read, of_width};

use crate::script::{Script, ScriptFault};
use hex::decode_to_slice;
use std::alloc::Global;
use vg_base::NoMemory;
use vg_lines::first_line;

/// The script of a text of at most 1,048,576 bytes.
///
/// A line is empty, a comment behind `#`, `r` and reads as two hexadecimal digits each, or `i` and interrupts from 1 to 34 in
/// decimal, each item behind one space. Lines end with LF or CR LF, the last one optional.
pub fn read_script(alloc: Global, text: &[u8]) -> Result<Script, ScriptFault>
    requires { length text.now ≤ image_text_limit }
    ensures script { IfOk result (λ script. IsScript text.now script) }
    ensures reads { IfOk result (λ script. AreReads script.reads) }
    ensures vectors { IfOk result (λ script. AreVectors script.interrupts) }
    ensures form { (n : ℕ) → result ≡ Err (ScriptFault.Form n) → first_bad text.now ≡ Some n }
{
    let mut reads = Vec::new(alloc);
    let mut interrupts = Vec::new(alloc);
    let mut number = 1u32;
    let mut rest = text;
    while !rest.is_empty() {
        let line = first_line(rest);
        match take_line(&mut reads, &mut interrupts, line.bytes)? {
            Taken::Bad => return Err(ScriptFault::Form(number)),
            Taken::Good => {
                number += 1;
                rest = line.behind;
            }
        }
    }
    Ok(Script::from_lists(reads, interrupts))
}

/// Whether a line, or its items, could be read.
#[derive(Clone, Copy)]
pub enum Taken {
    Good,
    Bad,
}

// Puts the items of a line behind the lists.
fn take_line(reads: &mut Vec<u8>, interrupts: &mut Vec<u8>, line: &[u8]) -> Result<Taken, NoMemory>
    ensures { IfOk result (λ taken. TakesLine (line_of line.now) reads.old.items reads.new.items interrupts.old.items interrupts.new.items taken) }
{
    match line {
        [] => Ok(Taken::Good),
        [b'#', ..] => Ok(Taken::Good),
        [b'r', items @ ..] => Ok(take_reads(reads, items)?),
        [b'i', items @ ..] => Ok(take_interrupts(interrupts, items)?),
        _ => Ok(Taken::Bad),
    }
}

// Puts reads behind a list, at least one.
fn take_reads(reads: &mut Vec<u8>, items: &[u8]) -> Result<Taken, NoMemory>
    ensures { IfOk result (λ taken. Takes reads.old.items reads.new.items (some (reads_in items.now)) taken) }
{
    if items.is_empty() {
        return Ok(Taken::Bad);
    }
    let mut rest = items;
    while !rest.is_empty() {
        match first_read(rest) {
            None => return Ok(Taken::Bad),
            Some(item) => {
                reads.push(item.value)?;
                rest = &rest[item.width..];
            }
        }
    }
    Ok(Taken::Good)
}

// Puts interrupts behind a list, at least one.
fn take_interrupts(interrupts: &mut Vec<u8>, items: &[u8]) -> Result<Taken, NoMemory>
    ensures { IfOk result (λ taken. Takes interrupts.old.items interrupts.new.items (some (interrupts_in items.now)) taken) }
{
    if items.is_empty() {
        return Ok(Taken::Bad);
    }
    let mut rest = items;
    while !rest.is_empty() {
        match first_interrupt(rest) {
            None => return Ok(Taken::Bad),
            Some(item) => {
                interrupts.push(item.value)?;
                rest = &rest[item.width..];
            }
        }
    }
    Ok(Taken::Good)
}

/// A read or an interrupt, and how many bytes it takes in a script, its space included.
#[derive(Clone, Copy)]
pub struct Item {
    pub value: u8,
    pub width: usize,
}

// The first of reads.
fn first_read(items: &[u8]) -> Option<Item>
    ensures { result ≡ first_read items.now }
{
    match items {
        [space, high, low, ..] => spaced_pair(*space, *high, *low),
        _ => None,
    }
}

// A read of two digits.
fn spaced_pair(space: u8, high: u8, low: u8) -> Option<Item>
    ensures { result ≡ of_width 3 (spaced_pair space high low) }
{
    if space != b' ' {
        return None;
    }
    let mut byte = [0u8; 1];
    match decode_to_slice([high, low], &mut byte) {
        Err(_) => None,
        Ok(()) => Some(Item {
            value: byte[0],
            width: 3,
        }),
    }
}

// The first of interrupts.
fn first_interrupt(items: &[u8]) -> Option<Item>
    ensures { result ≡ first_interrupt items.now }
{
    match items {
        [space, first] => one_digit(*space, *first),
        [space, first, next, ..] => {
            if *next == b' ' {
                one_digit(*space, *first)
            } else {
                two_digits(*space, *first, *next)
            }
        }
        _ => None,
    }
}

// An interrupt of one digit.
fn one_digit(space: u8, first: u8) -> Option<Item>
    ensures { result ≡ of_width 2 (one_digit space first) }
{
    match (space, first) {
        (b' ', b'1'..=b'9') => Some(Item {
            value: first - b'0',
            width: 2,
        }),
        _ => None,
    }
}

// An interrupt of two digits.
fn two_digits(space: u8, first: u8, second: u8) -> Option<Item>
    ensures { result ≡ of_width 3 (two_digits space first second) }
{
    if space != b' ' || first < b'1' || first > b'9' || second < b'0' || second > b'9' {
        return None;
    }
    let value = (first - b'0') * 10 + (second - b'0');
    if value <= 34 {
        Some(Item { value, width: 3 })
    } else {
        None
    }
}
