// What the tokens of a text stand for.
ghost use Rattle.std.specs.Prelude.{◌≡◌, ◌≤◌, ◌<◌, ◌-◌, ◌+◌, ◌^◌, ℕ, List, IfOk, length};
ghost use Rattle.vg_syntax.specs.Tokens.{text_of};
ghost use Rattle.vg_syntax.specs.Reads.{leaf};
ghost use Rattle.vg_tree.specs.HeldMade.{value_at};
ghost use Rattle.vg_reader.specs.Grown.{Grown};
ghost use Rattle.vg_texts.specs.Spelled.{IsSpelled};

use crate::maker::leaf;
use vg_base::{Names, NoMemory};
use vg_syntax::Token;
use vg_tree::Value;

/// What a token stands for, once its text has a name.
pub(crate) fn leaf_of(bytes: &[u8], token: &Token, names: &mut Names) -> Result<Value, NoMemory>
    requires spelled { IsSpelled bytes.now token.now }
    requires room { length names.old < 2 ^ 32 - 1 }
    ensures value { IfOk result (λ v. (texts : List (List ℕ)) → Grown names.new texts → value_at texts v ≡ leaf bytes.now token.now) }
    ensures names { Grown names.old names.new }
    ensures one { length names.new ≤ length names.old + 1 }
{
    let name = names.intern(text_of(bytes, token))?;
    Ok(leaf(token.kind, token.place, name))
}

// The text of a token.
fn text_of<'a>(bytes: &'a [u8], token: &Token) -> &'a str
    requires { IsSpelled bytes.now token.now }
    ensures { result.now ≡ text_of bytes.now token.now }
{
    match std::str::from_utf8(&bytes[token.start..token.end]) {
        Ok(text) => text,
        Err(_) => unreachable!(),
    }
}
