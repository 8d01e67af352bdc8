// From bytes to tokens.
ghost use Rattle.std.specs.Prelude.{◌≡◌, ◌≤◌, ◌<◌, ◌+◌, ◌^◌, ℕ, List, IfOk, length, take};
ghost use Rattle.vg_base.specs.Limits.{text_limit};
ghost use Rattle.vg_syntax.specs.declared.token.Token.{Token};
ghost use Rattle.vg_syntax.specs.Places.{place_behind};
ghost use Rattle.vg_syntax.specs.Tokens.{IsTokens, token_at};
ghost use Rattle.vg_scan.specs.Walk.{next_place, walked};

use crate::gap::gap_length;
use crate::lexeme::lexeme_of;
use std::alloc::Global;
use vg_base::{NoMemory, Place};
use vg_syntax::Token;

/// The tokens of a text of at most 262,144 bytes.
///
/// Every text has them: what begins no token is one of kind `Unknown`, to the end of the text. Want of memory is the
/// only error. The text is walked once, forward.
pub fn scan(alloc: Global, bytes: &[u8]) -> Result<Vec<Token>, NoMemory>
    requires { length bytes.now ≤ text_limit }
    ensures { IfOk result (λ v. IsTokens bytes.now v.items) }
{
    let mut tokens = Vec::new(alloc);
    let mut end = 0;
    let mut place = Place { line: 1, col: 1 };
    loop {
        let (_, rest) = bytes.split_at(end);
        let start = end + gap_length(rest);
        place = place_later(bytes, end, start, place);
        if start == bytes.len() {
            return Ok(tokens);
        }
        let token = token_at(bytes, start, place);
        tokens.push(token)?;
        place = place_later(bytes, start, token.end, place);
        end = token.end;
    }
}

/// The place behind the last byte of a text of at most 262,144 bytes.
pub fn end_place(bytes: &[u8]) -> Place
    requires { length bytes.now ≤ text_limit }
    ensures { result ≡ place_behind bytes.now }
{
    walked(Place { line: 1, col: 1 }, bytes)
}

/// A law: every text has exactly one list of tokens.
pub fn exactly_one_token_list()
    ensures some { (bytes : List ℕ) → (ts : List Token) × IsTokens bytes ts }
    ensures one { (bytes : List ℕ) (ts us : List Token) → IsTokens bytes ts → IsTokens bytes us → ts ≡ us }
{}

// The token that begins at `start`.
fn token_at(bytes: &[u8], start: usize, place: Place) -> Token
    requires short { length bytes.now ≤ text_limit }
    requires within { start < length bytes.now }
    requires place { place ≡ place_behind (take start bytes.now) }
    ensures value { result ≡ token_at bytes.now start }
    ensures some { start < result.end }
    ensures within { result.end ≤ length bytes.now }
{
    let (_, text) = bytes.split_at(start);
    let lexeme = lexeme_of(text);
    Token {
        kind: lexeme.kind,
        place,
        start,
        end: start + lexeme.length,
    }
}

// The place of the offset `to`, from that of the offset `from`.
fn place_later(bytes: &[u8], from: usize, to: usize, place: Place) -> Place
    requires order { from ≤ to }
    requires within { to ≤ length bytes.now }
    requires short { length bytes.now ≤ text_limit }
    requires place { place ≡ place_behind (take from bytes.now) }
    ensures { result ≡ place_behind (take to bytes.now) }
{
    walked(place, &bytes[from..to])
}

// The place behind some more bytes.
fn walked(place: Place, bytes: &[u8]) -> Place
    requires line { place.line + length bytes.now < 2 ^ 32 }
    requires col { place.col + length bytes.now < 2 ^ 32 }
    ensures { result ≡ walked place bytes.now }
{
    let mut place = place;
    for b in bytes {
        place = next_place(place, *b);
    }
    place
}

// The place behind one more byte.
fn next_place(place: Place, b: u8) -> Place
    requires line { place.line + 1 < 2 ^ 32 }
    requires col { place.col + 1 < 2 ^ 32 }
    ensures { result ≡ next_place place b }
{
    if b == b'\n' {
        Place {
            line: place.line + 1,
            col: 1,
        }
    } else {
        Place {
            line: place.line,
            col: place.col + 1,
        }
    }
}
