// The alternative that the next token asks for.
ghost use Rattle.std.specs.Prelude.{◌≡◌, ◌≤◌, length, IfSome};
ghost use Rattle.std.specs.Option.{option_map};
ghost use Rattle.vg_grammar.specs.Numbers.{number};
ghost use Rattle.vg_grammar.specs.Tables.{chosen, suits, mem};

use crate::alternative::alternative;
use crate::number::number;
use crate::starts::starts;
use vg_syntax::{Kind, Part, Symbol};

/// The alternative of a part that the next token asks for: None where no text goes on with that token.
pub fn chosen(part: Part, look: Kind) -> Option<&'static [Symbol]>
    ensures chosen { option_map (λ s. s.now) result ≡ chosen part (number look) }
    ensures short { IfSome result (λ s. length s.now ≤ 5) }
{
    let mut index = 0;
    while let Some(symbols) = alternative(part, index) {
        if suits(symbols, look) {
            return Some(symbols);
        }
        index += 1;
    }
    None
}

// Whether the next token can begin an alternative, or the alternative is empty.
fn suits(symbols: &[Symbol], look: Kind) -> bool
    ensures { result ≡ suits symbols.now (number look) }
{
    match symbols.first() {
        None => true,
        Some(symbol) => match symbol {
            Symbol::Sign(kind) => number(look) == number(*kind),
            Symbol::Use(part) => contains(starts(*part), look),
        },
    }
}

// Whether a kind is among these.
fn contains(kinds: &[Kind], kind: Kind) -> bool
    ensures { result ≡ mem (number kind) kinds.now }
{
    for other in kinds {
        if number(kind) == number(*other) {
            return true;
        }
    }
    false
}
