// Tokens by their kinds, and their bytes.
ghost use Rattle.std.specs.Prelude.{◌≡◌, ◌↔◌, ◌++◌, IsTrue, IfSome, IfNone, List, map};
ghost use Rattle.vg_syntax.specs.declared.token.Token.{Token};
ghost use Rattle.vg_first_text.specs.Shapes.{kind_of};
ghost use Rattle.vg_syntax.specs.Tokens.{text_of};

use vg_syntax::{Kind, Token};

// The tokens at the front that are of these kinds, in this order, and those behind them.
pub(crate) fn split_kinds<'a>(
    tokens: &'a [Token],
    kinds: &[Kind],
) -> Option<(&'a [Token], &'a [Token])>
    ensures some { IfSome result (λ r. (tokens.entry.now ≡ r.0.now ++ r.1.now) × (map kind_of r.0.now ≡ kinds.now)) }
    ensures none { IfNone result ((front rest : List Token) → tokens.entry.now ≡ front ++ rest → map kind_of front ≡ kinds.now → ⊥) }
{
    if tokens.len() < kinds.len() {
        return None;
    }
    let (front, rest) = tokens.split_at(kinds.len());
    if are_of_kinds(front, kinds) {
        Some((front, rest))
    } else {
        None
    }
}

// Whether the tokens are of these kinds, in this order, and no more.
pub(crate) fn are_of_kinds(tokens: &[Token], kinds: &[Kind]) -> bool
    ensures { IsTrue result ↔ (map kind_of tokens.now ≡ kinds.now) }
{
    let mut rest = tokens;
    for kind in kinds {
        let Some((token, behind)) = rest.split_first() else {
            return false;
        };
        if !is_of_kind(token, *kind) {
            return false;
        }
        rest = behind;
    }
    rest.is_empty()
}

fn is_of_kind(token: &Token, kind: Kind) -> bool
    ensures { IsTrue result ↔ (kind_of token.now ≡ kind) }
{
    token.kind == kind
}

// The bytes of a token.
pub(crate) fn text_of<'a>(bytes: &'a [u8], token: &Token) -> &'a [u8]
    ensures { result.now ≡ text_of bytes.entry.now token.now }
{
    if token.start <= token.end && token.end <= bytes.len() {
        &bytes[token.start..token.end]
    } else {
        let (_, behind) = bytes.split_at(token.start.min(bytes.len()));
        let (text, _) = behind.split_at(token.end.saturating_sub(token.start).min(behind.len()));
        text
    }
}
