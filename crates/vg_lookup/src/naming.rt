// The words for members.
ghost use Rattle.std.specs.Prelude.{◌≡◌, ◌&&◌, bytes_eq};
ghost use Rattle.vg_core.specs.Naming.{owner_name, text_at};
ghost use Rattle.vg_lookup.specs.Lookup.{word_of};
ghost use Rattle.vg_lookup.specs.Mirrors.{point_and};

use vg_base::{Name, Names};
use vg_core::{Owner, Tables};

/// The text of a name, where it has one.
pub fn text_of(names: &Names, name: Name) -> &[u8]
    ensures { result.now ≡ text_at names.now name }
{
    match names.text(name) {
        Some(text) => text.as_bytes(),
        None => &[],
    }
}

/// The name of a class or component, where it is there.
pub fn class_or_component<'a>(names: &'a Names, tables: &Tables, owner: Owner) -> &'a [u8]
    ensures { result.now ≡ owner_name names.now tables.now owner }
{
    match owner {
        Owner::InClass(class) => match tables.classes.as_slice().get(usize::from(class)) {
            Some(found) => text_of(names, found.name),
            None => &[],
        },
        Owner::InComponent(component) => match tables
            .components
            .as_slice()
            .get(usize::from(component))
        {
            Some(found) => text_of(names, *found),
            None => &[],
        },
    }
}

/// Whether a word is the first name, a point, and the second.
pub fn is_word_of(word: &[u8], owner: &[u8], name: &[u8]) -> bool
    ensures { result ≡ bytes_eq word.now (word_of owner.now name.now) }
{
    match word.split_at_checked(owner.len()) {
        Some((front, behind)) => are_parts(front, behind, owner, name),
        None => false,
    }
}

// Whether a front is the first name, and what stands behind it is a point and the second.
fn are_parts(front: &[u8], behind: &[u8], owner: &[u8], name: &[u8]) -> bool
    ensures { result ≡ bytes_eq front.now owner.now && point_and behind.now name.now }
{
    front == owner && point_and(behind, name)
}

// Whether these are a point and a name.
fn point_and(bytes: &[u8], name: &[u8]) -> bool
    ensures { result ≡ point_and bytes.now name.now }
{
    match bytes {
        [b'.', rest @ ..] => rest == name,
        _ => false,
    }
}
