// The bytes of a string token.
ghost use Rattle.std.specs.Prelude.{◌≡◌, ◌+◌, ◌*◌, ◌++◌, ◌∷◌, ℕ, List, IfOk};
ghost use Rattle.vg_source.specs.Literals.{bytes_of, elements, escaped, Between};
ghost use Rattle.vg_types_literals.specs.Elements.{progress};

use std::alloc::Global;
use vg_base::{NoMemory, Row};
use vg_types_numbers::digit_value;

// How much of an element was read.
#[derive(Clone, Copy, Debug, PartialEq, Eq)]
enum Element {
    Between,
    Escape,
    FirstDigit,
    SecondDigit(u32),
}

/// The bytes that a string token stands for, between its quotes.
pub(crate) fn bytes_of(alloc: Global, token: &str) -> Result<Row<u8>, NoMemory>
    ensures { IfOk result (λ row. row ≡ bytes_of token.now) }
{
    let bytes = token.as_bytes();
    match bytes.len().checked_sub(2) {
        Some(count) => {
            let (_, behind) = bytes.split_at(1);
            let (inner, _) = behind.split_at(count);
            elements(alloc, inner)
        }
        // A token that no text has: it has two quotes.
        None => Err(NoMemory),
    }
}

// The bytes of elements.
fn elements(alloc: Global, bytes: &[u8]) -> Result<Row<u8>, NoMemory>
    ensures { IfOk result (λ row. row ≡ elements Between bytes.now) }
{
    let mut row = Row::new(alloc);
    let mut at = Element::Between;
    'bytes: for byte in bytes {
        at = behind(at, *byte, &mut row)?;
    }
    Ok(row)
}

// Behind one byte more.
fn behind(at: Element, byte: u8, row: &mut Row<u8>) -> Result<Element, NoMemory>
    ensures { IfOk result (λ next. (rest : List ℕ) → row.new ++ elements (progress next) rest ≡ row.old ++ elements (progress at) (byte ∷ rest)) }
{
    match at {
        Element::Between => {
            if byte == b'\\' {
                return Ok(Element::Escape);
            }
            row.push(byte)?;
            Ok(Element::Between)
        }
        Element::Escape => {
            if byte == b'x' {
                return Ok(Element::FirstDigit);
            }
            row.push(escaped(byte))?;
            Ok(Element::Between)
        }
        Element::FirstDigit => Ok(Element::SecondDigit(digit_value(byte))),
        Element::SecondDigit(first) => {
            row.push(byte_of(first, digit_value(byte))?)?;
            Ok(Element::Between)
        }
    }
}

// The byte of two hexadecimal digits.
fn byte_of(high: u32, low: u32) -> Result<u8, NoMemory>
    ensures { IfOk result (λ byte. byte ≡ high * 16 + low) }
{
    match u8::try_from(high.saturating_mul(16).saturating_add(low)) {
        Ok(byte) => Ok(byte),
        // A token that no text has: a digit is at most 15.
        Err(_) => Err(NoMemory),
    }
}

// The byte that a letter behind a backslash stands for.
fn escaped(letter: u8) -> u8
    ensures { result ≡ escaped letter }
{
    match letter {
        b'n' => b'\n',
        b'r' => b'\r',
        b't' => b'\t',
        b'0' => 0,
        other => other,
    }
}
