// The command that words mean.
ghost use Rattle.std.specs.Prelude.{◌≡◌, ◌≤◌, IfSome, option_map};
ghost use Rattle.std.specs.Option.{option_copied};
ghost use Rattle.vg_words.specs.Commands.{HasObjects, HasStack, HasSteps, command_of, words_in};
ghost use Rattle.vg_words.specs.Commands.{build_of, init_steps_in, objects_in, on_script, run_of, sim_of, stack_in, stack_value, steps_in, try_of, why_of};
ghost use Rattle.vg_words.specs.Views.{command_in};
ghost use Rattle.vg_words.specs.Items.{items};

use crate::number::number;
use crate::options::{knows, value_of};
use crate::plain::{one_word, two_words};

/// What a command line asks for.
#[derive(Clone, Copy, Debug, PartialEq, Eq)]
pub enum Command<'a> {
    /// `build FILE`: the source text in this file is to be built, with a stack of `stack` bytes, from 1 to 4096, where one is
    /// asked for, and at most `init_steps` ticks are to be spent in its initialisation, from 1 to 100,000,000.
    Build {
        file: &'a str,
        stack: Option<u16>,
        init_steps: u32,
    },
    /// `run FILE SCRIPT`: the source text in this file is to be run on the script in the file `script`, for at most `steps`
    /// ticks, from 1 to 1,000,000,000.
    Run {
        file: &'a str,
        script: &'a str,
        steps: u32,
    },
    /// `sim HEX SCRIPT`: the image in the file `hex` is to run on the script in the file `script`, for at most `steps`
    /// instructions, from 1 to 1,000,000,000.
    Sim {
        hex: &'a str,
        script: &'a str,
        steps: u32,
    },
    /// `why FILE MEMBER`: why the member of this name is live in the source text in this file.
    Why {
        file: &'a str,
        member: &'a str,
    },
    /// `try N`: the generated program of so many objects, from 1 to 500, is to be built and its image to run.
    Try {
        objects: u32,
    },
}

/// The command that the words behind the program's name mean, or `None` where they mean none. It takes no memory.
///
/// The first word is the command, and behind it stand options and plain words in any order. `--name VALUE` and
/// `--name=VALUE` are options, each of which may stand once; behind `--` each word is plain. `build FILE` has one plain
/// word and two options: `--stack N`, with N from 1 to 4096 in at most nine digits, which asks for no stack where it is absent,
/// and `--init-steps N`, with N from 1 to 100,000,000 in at most nine digits, and 1,000,000 where it is absent. `run FILE SCRIPT`
/// and `sim HEX SCRIPT` have two and the option `--steps N`, with N from 1 to 1,000,000,000 in at most ten digits, and 10,000,000
/// where it is absent. `why FILE MEMBER` has two and no option, and `try N` has one, which is a number from 1 to 500 in at most nine digits, and no option.
pub fn command_of(words: &[String]) -> Option<Command<'_>>
    ensures meaning { option_map command_in result ≡ command_of (words_in words.entry.now) }
    ensures steps { IfSome result (λ command. HasSteps (command_in command)) }
    ensures stack { IfSome result (λ command. HasStack (command_in command)) }
    ensures objects { IfSome result (λ command. HasObjects (command_in command)) }
{
    match words {
        [] => None,
        [name, behind @ ..] => {
            if name.as_str() == "build" {
                build_of(behind)
            } else if name.as_str() == "run" {
                run_of(behind)
            } else if name.as_str() == "sim" {
                sim_of(behind)
            } else if name.as_str() == "why" {
                why_of(behind)
            } else if name.as_str() == "try" {
                try_of(behind)
            } else {
                None
            }
        }
    }
}

// `build FILE`, with `--stack N` and `--init-steps N`
fn build_of(words: &[String]) -> Option<Command<'_>>
    ensures meaning { option_map command_in result ≡ build_of (items (words_in words.entry.now)) }
    ensures steps { IfSome result (λ command. HasSteps (command_in command)) }
    ensures stack { IfSome result (λ command. HasStack (command_in command)) }
    ensures objects { IfSome result (λ command. HasObjects (command_in command)) }
{
    if !knows(&[b"--stack", b"--init-steps"], words) {
        return None;
    }
    match (one_word(words), stack_in(words), init_steps_in(words)) {
        (Some(file), Some(stack), Some(init_steps)) => Some(Command::Build {
            file,
            stack,
            init_steps,
        }),
        _ => None,
    }
}

// `run FILE SCRIPT`, with `--steps N`
fn run_of(words: &[String]) -> Option<Command<'_>>
    ensures meaning { option_map command_in result ≡ run_of (items (words_in words.entry.now)) }
    ensures steps { IfSome result (λ command. HasSteps (command_in command)) }
    ensures stack { IfSome result (λ command. HasStack (command_in command)) }
    ensures objects { IfSome result (λ command. HasObjects (command_in command)) }
{
    match on_script(words) {
        Some((file, script, steps)) => Some(Command::Run {
            file,
            script,
            steps,
        }),
        None => None,
    }
}

// `sim HEX SCRIPT`, with `--steps N`
fn sim_of(words: &[String]) -> Option<Command<'_>>
    ensures meaning { option_map command_in result ≡ sim_of (items (words_in words.entry.now)) }
    ensures steps { IfSome result (λ command. HasSteps (command_in command)) }
    ensures stack { IfSome result (λ command. HasStack (command_in command)) }
    ensures objects { IfSome result (λ command. HasObjects (command_in command)) }
{
    match on_script(words) {
        Some((hex, script, steps)) => Some(Command::Sim { hex, script, steps }),
        None => None,
    }
}

// `why FILE MEMBER`
fn why_of(words: &[String]) -> Option<Command<'_>>
    ensures meaning { option_map command_in result ≡ why_of (items (words_in words.entry.now)) }
    ensures steps { IfSome result (λ command. HasSteps (command_in command)) }
    ensures stack { IfSome result (λ command. HasStack (command_in command)) }
    ensures objects { IfSome result (λ command. HasObjects (command_in command)) }
{
    if !knows(&[], words) {
        return None;
    }
    match two_words(words) {
        Some((file, member)) => Some(Command::Why { file, member }),
        None => None,
    }
}

// `try N`
fn try_of(words: &[String]) -> Option<Command<'_>>
    ensures meaning { option_map command_in result ≡ try_of (items (words_in words.entry.now)) }
    ensures steps { IfSome result (λ command. HasSteps (command_in command)) }
    ensures stack { IfSome result (λ command. HasStack (command_in command)) }
    ensures objects { IfSome result (λ command. HasObjects (command_in command)) }
{
    if !knows(&[], words) {
        return None;
    }
    match objects_in(one_word(words)) {
        Some(objects) => Some(Command::Try { objects }),
        None => None,
    }
}

// The objects of a plain word, where there is one.
fn objects_in(word: Option<&str>) -> Option<u32>
    ensures meaning { result ≡ objects_in (option_copied word.entry) }
    ensures within { IfSome result (λ objects. (1 ≤ objects) × (objects ≤ 500)) }
{
    match word {
        Some(text) => number(9, 500, text.as_bytes()),
        None => None,
    }
}

// Two plain words, of which the second is a script, with `--steps N`.
fn on_script(words: &[String]) -> Option<(&str, &str, u32)>
    ensures meaning { option_map (λ given. (given.0.now, given.1.now, given.2)) result ≡ on_script (items (words_in words.entry.now)) }
    ensures within { IfSome result (λ given. (1 ≤ given.2) × (given.2 ≤ 1000000000)) }
{
    if !knows(&[b"--steps"], words) {
        return None;
    }
    match (two_words(words), steps_in(words)) {
        (Some((first, script)), Some(steps)) => Some((first, script, steps)),
        _ => None,
    }
}

// The stack that `--stack N` asks for, or that none is asked for.
fn stack_in(words: &[String]) -> Option<Option<u16>>
    ensures meaning { result ≡ stack_in (items (words_in words.now)) }
    ensures within { IfSome result (λ stack. IfSome stack (λ bytes. (1 ≤ bytes) × (bytes ≤ 4096))) }
{
    match value_of(words, b"--stack", 0) {
        None => Some(None),
        Some(value) => match value_of(words, b"--stack", 1) {
            None => stack_value(value),
            Some(_) => None,
        },
    }
}

// The stack of a value of `--stack`.
fn stack_value(text: &[u8]) -> Option<Option<u16>>
    ensures meaning { result ≡ stack_value text.now }
    ensures within { IfSome result (λ stack. IfSome stack (λ bytes. (1 ≤ bytes) × (bytes ≤ 4096))) }
{
    match number(9, 4096, text) {
        Some(bytes) => Some(Some(bytes as u16)),
        None => None,
    }
}

// The ticks that `--init-steps N` allows.
fn init_steps_in(words: &[String]) -> Option<u32>
    ensures meaning { result ≡ init_steps_in (items (words_in words.now)) }
    ensures within { IfSome result (λ steps. (1 ≤ steps) × (steps ≤ 100000000)) }
{
    match value_of(words, b"--init-steps", 0) {
        None => Some(1_000_000),
        Some(value) => match value_of(words, b"--init-steps", 1) {
            None => number(9, 100_000_000, value),
            Some(_) => None,
        },
    }
}

// The ticks or instructions that `--steps N` allows.
fn steps_in(words: &[String]) -> Option<u32>
    ensures meaning { result ≡ steps_in (items (words_in words.now)) }
    ensures within { IfSome result (λ steps. (1 ≤ steps) × (steps ≤ 1000000000)) }
{
    match value_of(words, b"--steps", 0) {
        None => Some(10_000_000),
        Some(value) => match value_of(words, b"--steps", 1) {
            None => number(10, 1_000_000_000, value),
            Some(_) => None,
        },
    }
}
