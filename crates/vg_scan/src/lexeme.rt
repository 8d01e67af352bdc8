// What a text begins with.
ghost use Rattle.std.specs.Prelude.{◌≡◌, ◌≤◌, ◌<◌, ◌+◌, ◌^◌, IsTrue, IfSome, length, take};
ghost use Rattle.std.specs.List.{list_all};
ghost use Rattle.vg_syntax.specs.Bytes.{is_letter, is_digit, is_hex_digit, is_word_byte, is_printable};
ghost use Rattle.vg_syntax.specs.Lexemes.{no_token, run_length, word, number, is_number, is_hexadecimal, is_escape, is_hex_escape, escape_length};
ghost use Rattle.vg_syntax.specs.Lexemes.{element_length, char_literal, string_end, string_literal, sign, lexeme};

use crate::spelling::{double_sign_kind, reserved_kind, single_sign_kind};
use vg_syntax::{Kind, Lexeme};

// What a text that has a byte begins with, where no white space and no comment stands in front.
pub(crate) fn lexeme_of(text: &[u8]) -> Lexeme
    requires { 0 < length text.now }
    ensures { result ≡ lexeme text.now }
{
    let first = text[0];
    if is_letter(first) {
        word(text)
    } else if first.is_ascii_digit() {
        number(text)
    } else if first == b'\'' {
        char_literal(&text[1..])
    } else if first == b'"' {
        string_literal(&text[1..])
    } else {
        sign(text)
    }
}

// The reserved word or the name that a text begins with.
fn word(text: &[u8]) -> Lexeme
    ensures { result ≡ word text.now }
{
    let length = run_length(text);
    Lexeme {
        kind: reserved_kind(&text[..length]).unwrap_or(Kind::Name),
        length,
    }
}

// The number that a text begins with, or no token.
fn number(text: &[u8]) -> Lexeme
    ensures { result ≡ number text.now }
{
    let length = run_length(text);
    if is_number(&text[..length]) {
        Lexeme {
            kind: Kind::Number,
            length,
        }
    } else {
        no_token(text)
    }
}

fn no_token(text: &[u8]) -> Lexeme
    ensures { result ≡ no_token text.now }
{
    Lexeme {
        kind: Kind::Unknown,
        length: text.len(),
    }
}

// How many letters, digits and underscores a text begins with.
fn run_length(text: &[u8]) -> usize
    ensures value { result ≡ run_length text.now }
    ensures within { result ≤ length text.now }
{
    let mut count = 0;
    for b in text {
        if !is_word_byte(*b) {
            return count;
        }
        count += 1;
    }
    count
}

// Whether a run of letters, digits and underscores is a number.
fn is_number(run: &[u8]) -> bool
    ensures { result ≡ is_number run.now }
{
    all_digits(run) || is_hexadecimal(run)
}

fn all_digits(run: &[u8]) -> bool
    ensures { result ≡ list_all is_digit run.now }
{
    run.iter().all(|b| b.is_ascii_digit())
}

fn all_hex_digits(run: &[u8]) -> bool
    ensures { result ≡ list_all is_hex_digit run.now }
{
    run.iter().all(|b| b.is_ascii_hexdigit())
}

/// Whether a run of letters, digits and `_` is a hexadecimal number: `0x` and one or more digits of either case.
pub fn is_hexadecimal(run: &[u8]) -> bool
    ensures value { result ≡ is_hexadecimal run.now }
    ensures long { IsTrue result → 3 ≤ length run.now }
{
    match run {
        [zero, x, first, digits @ ..] => {
            *zero == b'0' && *x == b'x' && first.is_ascii_hexdigit() && all_hex_digits(digits)
        }
        _ => false,
    }
}

// The character whose opening quote stands before this text, or no token.
fn char_literal(behind: &[u8]) -> Lexeme
    requires { length behind.now + 1 < 2 ^ 64 }
    ensures { result ≡ char_literal behind.now }
{
    let element = element_length(b'\'', behind);
    if element != 0 && behind[element..].first() == Some(&b'\'') {
        Lexeme {
            kind: Kind::CharLiteral,
            length: element + 2,
        }
    } else {
        Lexeme {
            kind: Kind::Unknown,
            length: behind.len() + 1,
        }
    }
}

// The string whose opening quote stands before this text, or no token.
fn string_literal(behind: &[u8]) -> Lexeme
    requires { length behind.now + 1 < 2 ^ 64 }
    ensures { result ≡ string_literal behind.now }
{
    match string_end(behind) {
        Some(length) => Lexeme {
            kind: Kind::StringLiteral,
            length,
        },
        None => Lexeme {
            kind: Kind::Unknown,
            length: behind.len() + 1,
        },
    }
}

// How many bytes a string takes whose opening quote stands before this text.
fn string_end(behind: &[u8]) -> Option<usize>
    requires { length behind.now + 1 < 2 ^ 64 }
    ensures value { result ≡ string_end 0 1 behind.now }
    ensures within { IfSome result (λ n. n ≤ length behind.now + 1) }
{
    let mut passed = 1;
    let mut rest = behind;
    while let Some(first) = rest.first() {
        if *first == b'"' {
            return Some(passed + 1);
        }
        let element = element_length(b'"', rest);
        if element == 0 {
            return None;
        }
        let (_, behind) = rest.split_at(element);
        passed += element;
        rest = behind;
    }
    None
}

// How many bytes the first element of a text takes between such quotes, and 0 where there is none.
fn element_length(quote: u8, text: &[u8]) -> usize
    ensures value { result ≡ element_length quote text.now }
    ensures within { result ≤ length text.now }
{
    match text.split_first() {
        None => 0,
        Some((b'\\', behind)) => match escape_length(behind) {
            0 => 0,
            length => length + 1,
        },
        Some((first, _)) => {
            if is_printable(*first) && *first != quote {
                1
            } else {
                0
            }
        }
    }
}

// How many bytes an escape takes behind its backslash, and 0 where it is none.
fn escape_length(behind: &[u8]) -> usize
    ensures value { result ≡ escape_length behind.now }
    ensures within { result ≤ length behind.now }
{
    match behind.first() {
        None => 0,
        Some(first) => {
            if is_escape(*first) {
                1
            } else if is_hex_escape(behind) {
                3
            } else {
                0
            }
        }
    }
}

fn is_hex_escape(behind: &[u8]) -> bool
    ensures value { result ≡ is_hex_escape behind.now }
    ensures long { IsTrue result → 3 ≤ length behind.now }
{
    match behind {
        [x, high, low, ..] => { *x == b'x' && high.is_ascii_hexdigit() && low.is_ascii_hexdigit() }
        _ => false,
    }
}

// The sign that a text begins with, or no token.
fn sign(text: &[u8]) -> Lexeme
    ensures { result ≡ sign text.now }
{
    if let Some(kind) = double_sign_kind(front(text, 2)) {
        return Lexeme { kind, length: 2 };
    }
    match single_sign_kind(front(text, 1)) {
        Some(kind) => Lexeme { kind, length: 1 },
        None => no_token(text),
    }
}

// The first bytes of a text, or all where it has no more.
fn front(text: &[u8], length: usize) -> &[u8]
    ensures { result.now ≡ take length text.now }
{
    if length < text.len() {
        &text[..length]
    } else {
        text
    }
}

fn is_letter(b: u8) -> bool
    ensures { result ≡ is_letter b }
{
    b.is_ascii_alphabetic() || b == b'_'
}

fn is_word_byte(b: u8) -> bool
    ensures { result ≡ is_word_byte b }
{
    is_letter(b) || b.is_ascii_digit()
}

fn is_printable(b: u8) -> bool
    ensures { result ≡ is_printable b }
{
    matches!(b, 0x20..=0x7E)
}

fn is_escape(b: u8) -> bool
    ensures { result ≡ is_escape b }
{
    matches!(b, b'n' | b'r' | b't' | b'0' | b'\\' | b'\'' | b'"')
}
