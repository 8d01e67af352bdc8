// The options among the words behind a command.
ghost use Rattle.std.specs.Prelude.{◌≡◌, ℕ, map, slice_get};
ghost use Rattle.std.specs.List.{list_any};
ghost use Rattle.std.specs.Option.{option_copied};
ghost use Rattle.std.specs.Str.{bytes_eq};
ghost use Rattle.vg_words.specs.Commands.{knows, words_in};
ghost use Rattle.vg_words.specs.Items.{items, values_of};

use crate::items::{First, Rest, first_item};

/// The value of the option `wanted` in front of which `index` others stand, or `None` where it is not given so often.
pub fn value_of<'a>(words: &'a [String], wanted: &[u8], index: usize) -> Option<&'a [u8]>
    ensures { option_copied result ≡ slice_get (values_of wanted.now (items (words_in words.entry.now))) index }
{
    let mut rest = Rest::Mixed(words);
    let mut left = index;
    'items: loop {
        match first_item(rest) {
            First::Set {
                name,
                value,
                behind,
            } => {
                if name == wanted {
                    if left == 0 {
                        return Some(value);
                    }
                    left -= 1;
                }
                rest = behind;
            }
            First::Plain { behind, .. } => rest = behind,
            First::End | First::Bare { .. } => return None,
        }
    }
}

/// Whether each option has a value and one of these names.
pub fn knows(names: &[&[u8]], words: &[String]) -> bool
    ensures { result ≡ knows (map (λ name. name.now) names.now) (items (words_in words.entry.now)) }
{
    let mut rest = Rest::Mixed(words);
    'items: loop {
        match first_item(rest) {
            First::End => return true,
            First::Bare { .. } => return false,
            First::Plain { behind, .. } => rest = behind,
            First::Set { name, behind, .. } => {
                if !is_among(name, names) {
                    return false;
                }
                rest = behind;
            }
        }
    }
}

fn is_among(name: &[u8], names: &[&[u8]]) -> bool
    ensures { result ≡ list_any (bytes_eq name.now) (map (λ known. known.now) names.now) }
{
    for known in names {
        if name == *known {
            return true;
        }
    }
    false
}
