// What stands behind a `new`: a class and its arguments, or the type of an element, a size and levels; and the suffixes behind them.
ghost use Rattle.std.specs.Prelude.{◌≡◌, List, [], ℕ, suc, IfOk, length, map};
ghost use Rattle.vg_syntax.specs.Reads.{kids_of, behind_name, new_of_name, named, new_part, bracketed, level_or_suffix, new_levels, new_level};
ghost use Rattle.vg_tree.specs.Held.{text_at};
ghost use Rattle.vg_tree.specs.HeldMade.{made_at, value_at};

use std::alloc::Global;
use std::mem;
use vg_base::{Name, NoMemory, Place};
use vg_tree::contents::{all_in, levels_in, node_in, row_in, text_in, type_in};
use vg_tree::made::{Made, Value};
use vg_tree::rows::{row_of, unwritten, with_front};
use vg_tree::types::array_of;
use vg_tree::{Node, TypeTree};

/// What stands behind a `new` and its name: arguments and suffixes, or a size, levels and suffixes.
pub fn behind_name(alloc: Global, nameless: Name, first: &mut Made, behind: &mut Made) -> Made
    ensures { (texts : List (List ℕ)) → text_at texts nameless ≡ [] → made_at texts result ≡ behind_name (made_at texts first.old) (made_at texts behind.old) }
{
    match first {
        Made::Row(arguments) => {
            let arguments = mem::replace(arguments, Vec::new(alloc));
            Made::Object(nameless, arguments, row_in(alloc, behind))
        }
        size => {
            let over = levels_in(alloc, behind);
            let (levels, suffixes) = over;
            Made::Sized(levels, node_in(size), suffixes)
        }
    }
}

/// What stands behind a `new` and its name.
pub fn new_of_name(alloc: Global, nameless: Name, kids: &mut [Value]) -> Value
    ensures { (texts : List (List ℕ)) → text_at texts nameless ≡ [] → value_at texts result ≡ new_of_name (kids_of (map (value_at texts) kids.old)) }
{
    match kids {
        [first, behind] => Value {
            place: first.place,
            made: behind_name(alloc, nameless, &mut first.made, &mut behind.made),
        },
        _ => unwritten(Made::Absent),
    }
}

/// A class's name, with what stands behind it.
pub fn named(alloc: Global, name: Name, made: &mut Made) -> Result<Made, NoMemory>
    ensures { (texts : List (List ℕ)) → IfOk result (λ m. made_at texts m ≡ named (text_at texts name) (made_at texts made.old)) }
{
    match made {
        Made::Object(_, arguments, suffixes) => {
            let arguments = mem::replace(arguments, Vec::new(alloc));
            let suffixes = mem::replace(suffixes, Vec::new(alloc));
            Ok(Made::Object(name, arguments, suffixes))
        }
        Made::Sized(levels, size, suffixes) => {
            let levels = mem::replace(levels, Vec::new(alloc));
            let size = mem::replace(size, Node::Nothing);
            let suffixes = mem::replace(suffixes, Vec::new(alloc));
            let element = array_of(alloc, levels, TypeTree::Class(name))?;
            Ok(Made::Array(element, size, suffixes))
        }
        other => Ok(all_in(other)),
    }
}

/// What stands behind a `new`.
pub fn new_part(alloc: Global, nameless: Name, kids: &mut [Value]) -> Result<Value, NoMemory>
    ensures { (texts : List (List ℕ)) → text_at texts nameless ≡ [] → IfOk result (λ v. value_at texts v ≡ new_part (kids_of (map (value_at texts) kids.old))) }
{
    match kids {
        [name, behind] => {
            let made = named(alloc, text_in(nameless, &name.made), &mut behind.made)?;
            Ok(Value {
                place: name.place,
                made,
            })
        }
        [atom, size, behind] => {
            let place = atom.place;
            let over = levels_in(alloc, &mut behind.made);
            let (levels, suffixes) = over;
            let element = array_of(alloc, levels, type_in(&mut atom.made))?;
            Ok(Value {
                place,
                made: Made::Array(element, node_in(&mut size.made), suffixes),
            })
        }
        _ => Ok(unwritten(Made::Absent)),
    }
}

/// An index behind a `[`, or the levels that it begins.
pub fn bracketed(alloc: Global, place: Place, made: &mut Made) -> Result<Made, NoMemory>
    ensures { (texts : List (List ℕ)) → IfOk result (λ m. made_at texts m ≡ bracketed place (made_at texts made.old)) }
{
    match made {
        Made::Indexed(index, suffixes) => {
            let index = Box::new(alloc, mem::replace(index, Node::Nothing))?;
            let suffixes = mem::replace(suffixes, Vec::new(alloc));
            let row = with_front(suffixes, Node::Index(place, index))?;
            Ok(Made::Levels(Vec::new(alloc), row))
        }
        other => Ok(all_in(other)),
    }
}

/// A call of these arguments and the suffixes behind it, or what stands behind a `[`.
pub fn level_or_suffix(
    alloc: Global,
    place: Place,
    first: &mut Made,
    behind: &mut Made,
) -> Result<Made, NoMemory>
    ensures { (texts : List (List ℕ)) → IfOk result (λ m. made_at texts m ≡ level_or_suffix place (made_at texts first.old) (made_at texts behind.old)) }
{
    match first {
        Made::Row(arguments) => {
            let arguments = mem::replace(arguments, Vec::new(alloc));
            let arguments = Box::new(alloc, row_of(arguments))?;
            let row = with_front(row_in(alloc, behind), Node::Call(place, arguments))?;
            Ok(Made::Levels(Vec::new(alloc), row))
        }
        _ => bracketed(alloc, place, behind),
    }
}

/// The levels behind the size of a new array, and the suffixes behind them.
pub fn new_levels(alloc: Global, nameless: Name, kids: &mut [Value]) -> Result<Value, NoMemory>
    ensures { (texts : List (List ℕ)) → text_at texts nameless ≡ []
        → IfOk result (λ v. value_at texts v ≡ new_levels (kids_of (map (value_at texts) kids.old))) }
{
    match kids {
        [dot, name, rest] => {
            let member = Node::Member(dot.place, text_in(nameless, &name.made));
            let row = with_front(row_in(alloc, &mut rest.made), member)?;
            Ok(Value {
                place: dot.place,
                made: Made::Levels(Vec::new(alloc), row),
            })
        }
        [first, behind] => {
            let place = first.place;
            let made = level_or_suffix(alloc, place, &mut first.made, &mut behind.made)?;
            Ok(Value { place, made })
        }
        _ => Ok(unwritten(Made::Levels(Vec::new(alloc), Vec::new(alloc)))),
    }
}

// One more level over those behind it.
fn with_level(levels: Vec<Place>, place: Place) -> Result<Vec<Place>, NoMemory>
    ensures { IfOk result (λ v. length v.items ≡ suc (length levels.items)) }
{
    let mut levels = levels;
    levels.push(place)?;
    Ok(levels)
}

/// One more level, which closes, or an index and the suffixes behind it.
pub fn new_level(alloc: Global, kids: &mut [Value]) -> Result<Value, NoMemory>
    ensures { (texts : List (List ℕ)) → IfOk result (λ v. value_at texts v ≡ new_level (kids_of (map (value_at texts) kids.old))) }
{
    match kids {
        [close, behind] => {
            let over = levels_in(alloc, &mut behind.made);
            let (levels, suffixes) = over;
            let levels = with_level(levels, close.place)?;
            Ok(Value {
                place: close.place,
                made: Made::Levels(levels, suffixes),
            })
        }
        [index, _, rest] => {
            let place = index.place;
            let made = Made::Indexed(node_in(&mut index.made), row_in(alloc, &mut rest.made));
            Ok(Value { place, made })
        }
        _ => Ok(unwritten(Made::Absent)),
    }
}
