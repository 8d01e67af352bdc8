// The texts of names.
ghost use Rattle.std.specs.Prelude.{◌≡◌};
ghost use Rattle.vg_tree.specs.Held.{text_at};

use vg_base::{Name, Names};

/// The text of a name; a name that has none here has the empty text.
pub fn text_of(names: &Names, name: Name) -> &str
    ensures { result.now ≡ text_at names.now name }
{
    match names.text(name) {
        Some(text) => text,
        None => "",
    }
}
