// The plain words among the words behind a command.
ghost use Rattle.std.specs.Prelude.{◌≡◌, ℕ, option_map, slice_get};
ghost use Rattle.std.specs.Option.{option_copied};
ghost use Rattle.vg_words.specs.Items.{items, one, plain_words, two};
ghost use Rattle.vg_words.specs.Commands.{words_in};

use crate::items::{First, Rest, first_item};

/// The plain word in front of which `index` plain words stand, or `None` where there are not so many.
pub fn plain_word(words: &[String], index: usize) -> Option<&str>
    ensures { option_copied result ≡ slice_get (plain_words (items (words_in words.entry.now))) index }
{
    let mut rest = Rest::Mixed(words);
    let mut left = index;
    'items: loop {
        match first_item(rest) {
            First::Plain { word, behind } => {
                if left == 0 {
                    return Some(word);
                }
                left -= 1;
                rest = behind;
            }
            First::Set { behind, .. } => rest = behind,
            First::End | First::Bare { .. } => return None,
        }
    }
}

/// The plain word, where there is exactly one.
pub fn one_word(words: &[String]) -> Option<&str>
    ensures { option_copied result ≡ one (plain_words (items (words_in words.entry.now))) }
{
    match plain_word(words, 0) {
        None => None,
        Some(word) => match plain_word(words, 1) {
            None => Some(word),
            Some(_) => None,
        },
    }
}

/// The two plain words, where there are exactly two.
pub fn two_words(words: &[String]) -> Option<(&str, &str)>
    ensures { option_map (λ pair. (pair.0.now, pair.1.now)) result ≡ two (plain_words (items (words_in words.entry.now))) }
{
    match plain_word(words, 1) {
        None => None,
        Some(second) => match plain_word(words, 2) {
            None => match plain_word(words, 0) {
                None => None,
                Some(first) => Some((first, second)),
            },
            Some(_) => None,
        },
    }
}
