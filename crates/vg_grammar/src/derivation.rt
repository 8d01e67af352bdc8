// From tokens to the steps that make their parse, or where they cease to be a text.
ghost use Rattle.std.specs.Prelude.{◌≡◌, ◌≤◌};
ghost use Rattle.vg_syntax.specs.Parses.{opened, is_open, is_close};
ghost use Rattle.vg_grammar.specs.Looks.{kind_at, is_at};
ghost use Rattle.vg_grammar.specs.Derivation.{Derived};

use crate::choice::chosen;
use crate::marks::{Mark, Marks};
use crate::number::number;
use std::alloc::Global;
use vg_base::Refusal;
use vg_syntax::{Kind, Part, Symbol, Token};

/// How many brackets may be open at one place of a text.
pub const MOST_OPEN: u8 = 64;

/// One step of the making of a parse from its leaves up. The steps of a parse stand in postfix order.
#[derive(Clone, Copy, Debug, PartialEq, Eq)]
pub enum Step {
    /// The next token of the text is taken.
    Take,
    /// A part is made of so many of the tokens and parts before it, the last ones.
    Make(Part, u8),
}

/// Why and where tokens cease to be a text. A number is that of a token, from 0, or the count of all tokens for their end.
#[derive(Clone, Copy, Debug, PartialEq, Eq)]
pub enum Stop {
    /// Some text begins with the tokens before this one, and none goes on with this one.
    NoTree(usize),
    /// This token opens a 65th bracket, and some text begins with it and the tokens before it.
    TooDeep(usize),
}

/// The steps that make the parse of these tokens, where they are a text of the language with at most 64 open brackets at each place.
///
/// Its time is linear in the number of tokens. It does not recurse: it keeps a stack of symbols and a list of steps, each at most a
/// constant number for each token.
pub fn derive(alloc: Global, tokens: &[Token]) -> Result<Vec<Step>, Refusal<Stop>>
    ensures { Derived tokens.now result }
{
    let mut marks = Marks::new(alloc);
    marks.push(Mark::See(Symbol::Use(Part::Text)))?;
    let mut steps = Vec::new(alloc);
    let mut at = 0;
    let mut deep = 0u8;
    while let Some(mark) = marks.pop() {
        match mark {
            Mark::Make(part, count) => steps.push(Step::Make(part, count))?,
            Mark::See(symbol) => match symbol {
                Symbol::Use(part) => match chosen(part, kind_at(tokens, at)) {
                    None => return Err(Refusal::Fault(Stop::NoTree(at))),
                    Some(symbols) => {
                        marks.push(Mark::Make(part, symbols.len() as u8))?;
                        marks.push_all(symbols)?;
                    }
                },
                Symbol::Sign(kind) => {
                    if !is_at(tokens, at, kind) {
                        return Err(Refusal::Fault(Stop::NoTree(at)));
                    }
                    match opened(deep, kind) {
                        None => return Err(Refusal::Fault(Stop::TooDeep(at))),
                        Some(now) => deep = now,
                    }
                    steps.push(Step::Take)?;
                    at += 1;
                }
            },
        }
    }
    if at == tokens.len() {
        Ok(steps)
    } else {
        Err(Refusal::Fault(Stop::NoTree(at)))
    }
}

/// The kind of the token of a number, `Unknown` at the end.
pub fn kind_at(tokens: &[Token], at: usize) -> Kind
    ensures { result ≡ kind_at tokens.now at }
{
    match tokens.get(at) {
        None => Kind::Unknown,
        Some(token) => token.kind,
    }
}

// Whether the token of a number is of a kind.
fn is_at(tokens: &[Token], at: usize, kind: Kind) -> bool
    ensures { result ≡ is_at tokens.now at kind }
{
    match tokens.get(at) {
        None => false,
        Some(token) => number(token.kind) == number(kind),
    }
}

/// How many brackets are open behind a token of a kind: None where it opens a 65th.
pub fn opened(deep: u8, kind: Kind) -> Option<u8>
    requires { deep ≤ MOST_OPEN }
    ensures { result ≡ opened deep kind }
{
    if is_open(kind) {
        if deep == MOST_OPEN {
            None
        } else {
            Some(deep + 1)
        }
    } else if is_close(kind) {
        Some(deep.saturating_sub(1))
    } else {
        Some(deep)
    }
}

fn is_open(kind: Kind) -> bool
    ensures { result ≡ is_open kind }
{
    match kind {
        Kind::LeftParen => true,
        Kind::LeftBracket => true,
        Kind::LeftBrace => true,
        _ => false,
    }
}

fn is_close(kind: Kind) -> bool
    ensures { result ≡ is_close kind }
{
    match kind {
        Kind::RightParen => true,
        Kind::RightBracket => true,
        Kind::RightBrace => true,
        _ => false,
    }
}
