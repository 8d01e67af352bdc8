// The items that the words behind a command spell, one by one.
ghost use Rattle.std.specs.Prelude.{◌≡◌, ◌+◌, ◌<◌, List, [], ◌∷◌, length, map, IfSome};
ghost use Rattle.vg_words.specs.Items.{ends_options, equals_at, is_option, items, option_items, Plain};
ghost use Rattle.vg_words.specs.Commands.{words_in};
ghost use Rattle.vg_words.specs.Walk.{Begins, LeavesBelow, items_in, size, with_next};

/// Words that are still to be read.
#[derive(Clone, Copy)]
pub enum Rest<'a> {
    /// Options and plain words.
    Mixed(&'a [String]),
    /// Plain words alone, behind `--`.
    Ended(&'a [String]),
}

/// The first item of words, and the words behind it.
#[derive(Clone, Copy)]
pub enum First<'a> {
    /// There is no item.
    End,
    Plain {
        word: &'a str,
        behind: Rest<'a>,
    },
    /// An option and its value, as bytes.
    Set {
        name: &'a [u8],
        value: &'a [u8],
        behind: Rest<'a>,
    },
    /// An option that lacks its value, behind which no word stands.
    Bare {
        name: &'a [u8],
    },
}

/// The first item of words.
pub fn first_item(rest: Rest<'_>) -> First<'_>
    ensures begins { Begins result (items_in rest.entry) }
    ensures shorter { LeavesBelow result (size rest.entry) }
{
    match rest {
        Rest::Mixed(words) => first_mixed(words),
        Rest::Ended(words) => first_ended(words),
    }
}

// The first of plain words.
fn first_ended(words: &[String]) -> First<'_>
    ensures begins { Begins result (map Plain (words_in words.entry.now)) }
    ensures shorter { LeavesBelow result (length words.entry.now) }
{
    match words {
        [] => First::End,
        [word, behind @ ..] => First::Plain {
            word,
            behind: Rest::Ended(behind),
        },
    }
}

// The first item of options and plain words.
fn first_mixed(words: &[String]) -> First<'_>
    ensures begins { Begins result (items (words_in words.entry.now)) }
    ensures shorter { LeavesBelow result (length words.entry.now) }
{
    match words {
        [] => First::End,
        [word, behind @ ..] => {
            if word.as_str() == "--" {
                first_ended(behind)
            } else if is_option(word) {
                first_option(word.as_bytes(), behind)
            } else {
                First::Plain {
                    word,
                    behind: Rest::Mixed(behind),
                }
            }
        }
    }
}

// Whether a word in front of `--` is an option.
fn is_option(word: &str) -> bool
    ensures { result ≡ is_option word.now }
{
    match word.as_bytes() {
        [first, _, ..] => *first == b'-',
        _ => false,
    }
}

// The item of an option in front of these words.
fn first_option<'a>(word: &'a [u8], behind: &'a [String]) -> First<'a>
    ensures begins { Begins result
        (option_items word.entry.now (equals_at word.entry.now) (items (words_in behind.entry.now)) (with_next word.entry.now (words_in behind.entry.now))) }
    ensures shorter { LeavesBelow result (length behind.entry.now + 1) }
{
    match equals_at(word) {
        Some(at) => First::Set {
            name: &word[..at],
            value: &word[at + 1..],
            behind: Rest::Mixed(behind),
        },
        None => match behind {
            [] => First::Bare { name: word },
            [value, more @ ..] => First::Set {
                name: word,
                value: value.as_bytes(),
                behind: Rest::Mixed(more),
            },
        },
    }
}

// Where the first `=` of a word stands.
fn equals_at(word: &[u8]) -> Option<usize>
    ensures place { result ≡ equals_at word.now }
    ensures within { IfSome result (λ at. at < length word.now) }
{
    word.iter().position(|b| *b == b'=')
}
