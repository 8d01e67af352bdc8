// Why bytes are no text, and where.
ghost use Rattle.std.specs.Prelude.{◌≡◌, ◌≤◌, length};
ghost use Rattle.vg_base.specs.Limits.{text_limit};
ghost use Rattle.vg_syntax.specs.Faults.{place_of};
ghost use Rattle.vg_reader.specs.Derivation.{fault_at};

use vg_base::Place;
use vg_grammar::Stop;
use vg_scan::end_place;
use vg_syntax::Token;

/// Why bytes are no text of the language.
#[derive(Clone, Copy, Debug, PartialEq, Eq)]
pub enum ReadFault {
    /// The token at this place, or the end, is the first behind which no text of the language goes on.
    NoTree(Place),
    /// The bracket at this place is the first that is a 65th open one, in a text that could still go on.
    TooDeep(Place),
}

/// The fault of the bytes whose tokens cease to be a text.
pub(crate) fn fault_at(bytes: &[u8], tokens: &[Token], stop: Stop) -> ReadFault
    requires { length bytes.now ≤ text_limit }
    ensures { result ≡ fault_at bytes.now tokens.now stop }
{
    match stop {
        Stop::NoTree(index) => ReadFault::NoTree(place_of(bytes, tokens, index)),
        Stop::TooDeep(index) => ReadFault::TooDeep(place_of(bytes, tokens, index)),
    }
}

// The place of the token of a number, or that behind the last byte.
fn place_of(bytes: &[u8], tokens: &[Token], index: usize) -> Place
    requires { length bytes.now ≤ text_limit }
    ensures { result ≡ place_of bytes.now tokens.now index }
{
    match tokens.get(index) {
        None => end_place(bytes),
        Some(token) => token.place,
    }
}
